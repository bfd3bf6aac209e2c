//! What no clause says: tags that others have computed, and a link that is used.

use crate::{Gate, Ledger, Opened, Peer, SealedLink, Unlimited, open, seal, tag};
use fb_link::{Link, MemoryLink, Plan, Received};
use std::alloc::{AllocError, Global};
use std::test::Fail;

const DATAGRAM: [u8; 7] = [0x46, 0x42, 1, 1, 0, 7, 0];

const KEY: [u8; 32] = [
    0, 1, 2, 3, 4, 5, 6, 7, 8, 9, 10, 11, 12, 13, 14, 15, 16, 17, 18, 19, 20, 21, 22, 23, 24, 25,
    26, 27, 28, 29, 30, 31,
];

// The datagram, sealed under this key by 7 with the counter 258: made by Python's `hmac`.
const SEALED: [u8; 35] = [
    0x53, 1, 0, 7, 0, 0, 0, 0, 0, 0, 1, 2, 0x46, 0x42, 1, 1, 0, 7, 0, 0x15, 0x72, 0x66, 0x24, 0x90,
    0x40, 0x9f, 0x98, 0xd5, 0xfb, 0x4f, 0x4d, 0x4f, 0xc8, 0x41, 0xb5,
];

// The keys of the cases 2 and 5 of RFC 4231. Zeros behind a key are its padding.
const JEFE: [u8; 32] = [
    0x4a, 0x65, 0x66, 0x65, 0, 0, 0, 0, 0, 0, 0, 0, 0, 0, 0, 0, 0, 0, 0, 0, 0, 0, 0, 0, 0, 0, 0, 0,
    0, 0, 0, 0,
];

const TWENTY: [u8; 32] = [
    12, 12, 12, 12, 12, 12, 12, 12, 12, 12, 12, 12, 12, 12, 12, 12, 12, 12, 12, 12, 0, 0, 0, 0, 0,
    0, 0, 0, 0, 0, 0, 0,
];

#[test]
fn published_tags(rt: HostRuntime) -> Result<(), Fail> {
    let second = [
        0x5b, 0xdc, 0xc1, 0x46, 0xbf, 0x60, 0x75, 0x4e, 0x6a, 0x04, 0x24, 0x26, 0x08, 0x95, 0x75,
        0xc7,
    ];
    assert!(rt;
        tag(&JEFE, b"what do ya want for nothing?") == second,
        "case 2"
    );
    let fifth = [
        0xa3, 0xb6, 0x16, 0x74, 0x73, 0x10, 0x0e, 0xe0, 0x6e, 0x0c, 0x79, 0x6c, 0x29, 0x55, 0x55,
        0x2b,
    ];
    assert!(rt; tag(&TWENTY, b"Test With Truncation") == fifth, "case 5");
    assert!(rt;
        matches!(open(&KEY, &SEALED), Opened::Message(_)),
        "it is opened"
    );
    assert!(rt;
        matches!(open(&KEY, &SEALED[..34]), Opened::Forged),
        "cut off"
    );
    assert!(rt;
        matches!(open(&KEY, &DATAGRAM), Opened::NotSealed),
        "not sealed"
    );
    Ok(())
}

// A ledger that writes down so many times.
#[derive(Drop)]
struct Pages(u32);

impl Pages {
    fn write(&mut self) -> bool {
        if self.0 == 0 {
            return false;
        }
        self.0 -= 1;
        true
    }
}

impl Ledger for Pages {
    ghost writes = { λ _ _ _ _. Unit {0} };

    fn reserve(&mut self, _upto: u64) -> bool {
        self.write()
    }

    fn allow(&mut self, _place: usize, _upto: u64) -> bool {
        self.write()
    }
}

// A link in memory that hands out these datagrams, with room for two.
fn held(alloc: Global, datagrams: &[&[u8]]) -> Result<MemoryLink, AllocError> {
    let mut held = Vec::new(alloc);
    for datagram in datagrams {
        held.push(datagram.to_vec(alloc)?)?;
    }
    let plan = Plan {
        receives: Vec::new(alloc),
        sends: Vec::new(alloc),
    };
    MemoryLink::new(alloc, held, 2, plan)
}

#[test]
fn a_sealed_link(rt: HostRuntime) -> Result<(), Fail> {
    let alloc = rt.alloc();
    let again = seal(&KEY, 7, 300, &DATAGRAM);
    let stranger = seal(&KEY, 8, 1, &DATAGRAM);
    let ahead = seal(&KEY, 7, 1000, &DATAGRAM);
    let below = held(
        alloc,
        &[
            &SEALED,
            &SEALED,
            stranger.as_slice(),
            ahead.as_slice(),
            again.as_slice(),
        ],
    )?;
    let mut peers = Vec::new(alloc);
    peers.push(Peer::after(7, KEY, 1))?;
    let mut link = SealedLink::over(below, Pages(1), Unlimited, 7, KEY, 258, peers);
    let mut buffer = [0u8; 160];
    assert!(rt;
        matches!(link.receive(&mut buffer), Received::Got(7)),
        "a peer's, once that is written down"
    );
    assert!(rt; &buffer[..7] == DATAGRAM.as_slice(), "what it sealed");
    assert!(rt;
        matches!(link.receive(&mut buffer), Received::Got(7)),
        "the next, which is below the 64 that were"
    );
    assert!(rt;
        matches!(link.receive(&mut buffer), Received::Nothing),
        "no more"
    );
    let refused = link.refused();
    assert!(rt;
        refused.stale == 1 && refused.strangers == 1 && refused.ahead == 1,
        "the others: one is too far ahead, since nothing more is written down"
    );
    assert!(rt; !link.send(&DATAGRAM), "no counter is reserved");
    link.reserve(259);
    assert!(rt; link.send(&DATAGRAM), "the one that is");
    assert!(rt; !link.send(&DATAGRAM), "no other");
    assert!(rt;
        link.below().taken(0).ok_or("none")? == SEALED.as_slice(),
        "sealed so"
    );
    Ok(())
}

// A gate that lets so many pass.
#[derive(Drop)]
struct Turnstile(u32);

impl Gate for Turnstile {
    ghost lets = { λ _ _ _ _. Unit {0} };

    fn passes(&mut self, _sender: u16) -> bool {
        if self.0 == 0 {
            return false;
        }
        self.0 -= 1;
        true
    }
}

#[test]
fn a_gated_link(rt: HostRuntime) -> Result<(), Fail> {
    let alloc = rt.alloc();
    let stranger = seal(&KEY, 8, 1, &DATAGRAM);
    let fast = seal(&KEY, 7, 300, &DATAGRAM);
    let below = held(
        alloc,
        &[
            stranger.as_slice(),
            &SEALED,
            &SEALED,
            fast.as_slice(),
            fast.as_slice(),
        ],
    )?;
    let mut peers = Vec::new(alloc);
    peers.push(Peer::after(7, KEY, 1))?;
    let mut link = SealedLink::over(below, Pages(1), Turnstile(1), 7, KEY, 258, peers);
    let mut buffer = [0u8; 160];
    assert!(rt;
        matches!(link.receive(&mut buffer), Received::Got(7)),
        "the gate is not asked of the stranger"
    );
    assert!(rt;
        matches!(link.receive(&mut buffer), Received::Nothing),
        "no other passes"
    );
    let refused = link.refused();
    assert!(rt;
        refused.strangers == 1 && refused.fast == 1,
        "one came too fast"
    );
    assert!(rt; refused.stale == 2, "its counter is spent");
    assert!(rt; link.dropped() == 4, "all that were dropped");
    Ok(())
}
