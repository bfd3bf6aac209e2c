//! What no case of a file can ask: links hand on what they are given.

use crate::{Link, MemoryLink, Plan, Received};
use std::alloc::{AllocError, Global};
use std::test::Fail;

pub(crate) const FIRST: [u8; 7] = [0x46, 0x42, 1, 1, 0, 7, 0];

pub(crate) const SECOND: [u8; 7] = [0x46, 0x42, 1, 2, 0, 3, 0];

// A link in memory that hands out two datagrams, has room for two, and fails in these calls.
pub(crate) fn memory(
    alloc: Global,
    receives: &[u64],
    sends: &[u64],
) -> Result<MemoryLink, AllocError> {
    let mut held = Vec::new(alloc);
    held.push(FIRST.to_vec(alloc)?)?;
    held.push(SECOND.to_vec(alloc)?)?;
    let plan = Plan {
        receives: receives.to_vec(alloc)?,
        sends: sends.to_vec(alloc)?,
    };
    MemoryLink::new(alloc, held, 2, plan)
}

// A link in memory that hands out these datagrams.
pub(crate) fn held(alloc: Global, datagrams: &[&[u8]]) -> Result<MemoryLink, AllocError> {
    let mut held = Vec::new(alloc);
    for datagram in datagrams {
        held.push(datagram.to_vec(alloc)?)?;
    }
    let plan = Plan {
        receives: Vec::new(alloc),
        sends: Vec::new(alloc),
    };
    MemoryLink::new(alloc, held, 0, plan)
}

// The bytes of a receive; none where nothing was there, or the link failed.
fn came<L: Link>(link: &mut L, buffer: &mut [u8]) -> usize {
    match link.receive(buffer) {
        Received::Got(count) => count,
        _ => 0,
    }
}

#[test]
fn in_memory(rt: HostRuntime) -> Result<(), Fail> {
    let mut link = memory(rt.alloc(), &[2], &[1])?;
    let mut buffer = [0u8; 5];
    assert_eq!(rt; came(&mut link, &mut buffer), 5);
    assert_eq!(rt; buffer, [0x46, 0x42, 1, 1, 0]);
    assert!(rt;
        matches!(link.receive(&mut buffer), Received::Failed),
        "the second receive fails"
    );
    assert_eq!(rt; link.failures(), 1);
    assert_eq!(rt; came(&mut link, &mut buffer), 5);
    assert_eq!(rt; buffer, [0x46, 0x42, 1, 2, 0]);
    assert!(rt;
        matches!(link.receive(&mut buffer), Received::Nothing),
        "no third datagram"
    );
    assert!(rt; !link.send(&FIRST), "the first send fails");
    assert!(rt; link.send(&SECOND), "the second is taken");
    assert!(rt; !link.send(&[0u8; 161]), "one of 161 bytes is not");
    assert!(rt; link.send(&FIRST), "the fourth is taken");
    assert!(rt; !link.send(&FIRST), "no room is left");
    assert_eq!(rt; link.failures(), 4);
    assert_eq!(rt; link.taken_len(), 2);
    assert_eq!(rt; link.taken(0).ok_or("none")?, SECOND.as_slice());
    assert_eq!(rt; link.taken(1).ok_or("none")?, FIRST.as_slice());
    Ok(())
}
