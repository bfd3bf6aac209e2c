//! Sealed links.

ghost use Rattle.std.specs.Prelude.{◌≡◌, ◌≤◌, ◌<◌, List, IfErr, IfOk, length, take, max};
ghost use Rattle.fb_link.specs.Link.{receipt, FitsRoom};
ghost use Rattle.fb_seal.specs.Peers.{allow_at};
ghost use Rattle.fb_seal.specs.declared.peers.Peer.{Peer};
ghost use Rattle.fb_seal.specs.Ledger.{Extends};
ghost use Rattle.fb_seal.specs.Passing.{IsLost, IsTaken, Receipt, Refills, SealedStep, Sends, count};

use crate::form::seal;
use crate::gate::Gate;
use crate::ledger::Ledger;
use crate::peers::{Peer, Reason, admit};
use fb_link::{Link, Received};
use std::time::Duration;

/// How many datagrams one receive drops at most: as many as a link over UDP, so that a turn of a device ends whatever strangers send.
const DROPS: u32 = 16;

/// How many own counters are written down at once.
const STEP: u64 = 65_536;

/// How many datagrams were dropped, by the reason, each up to 2^64 - 1.
#[derive(Clone, Copy)]
pub struct Dropped {
    pub not_sealed: u64,
    pub strangers: u64,
    pub forged: u64,
    pub stale: u64,
    pub ahead: u64,
    pub fast: u64,
}

impl Dropped {
    // One more for this reason.
    fn count(&mut self, reason: Reason)
        ensures { self.new ≡ count self.old reason }
    {
        match reason {
            Reason::NotSealed => self.not_sealed = self.not_sealed.saturating_add(1),
            Reason::Stranger => self.strangers = self.strangers.saturating_add(1),
            Reason::Forged => self.forged = self.forged.saturating_add(1),
            Reason::Stale => self.stale = self.stale.saturating_add(1),
            Reason::Ahead => self.ahead = self.ahead.saturating_add(1),
            Reason::Fast => self.fast = self.fast.saturating_add(1),
        }
    }
}

/// A link over another one that seals what goes out, and hands on only what its peers sealed, each datagram at most once, and no more than a gate lets pass.
#[derive(Drop)]
pub struct SealedLink<L, K, G> {
    link: L,
    ledger: K,
    gate: G,
    number: u16,
    key: [u8; 32],
    next: u64,
    reserved: u64,
    peers: Vec<Peer>,
    dropped: Dropped,
    failures: u64,
}

// Copies the first bytes, as far as there is room, and answers how many.
fn copy_front(from: &[u8], to: &mut [u8]) -> usize
    ensures fits { result ≤ length to.new }
    ensures front { take result to.new ≡ take (length to.old) from.now }
{
    let n = from.len().min(to.len());
    to[..n].copy_from_slice(&from[..n]);
    n
}

// What a peer sealed in these bytes, if that is admitted and the gate lets the peer pass; or why they are dropped. The gate is asked last, so that what is
// forged or came before costs a peer nothing.
fn taken_in<'a, K: Ledger, G: Gate>(
    peers: &mut Vec<Peer>,
    ledger: &mut K,
    gate: &mut G,
    bytes: &'a [u8],
) -> Result<&'a [u8], Reason>
    ensures ok { IfOk result (λ datagram. (mid : List Peer) × Extends K.writes peers.old.items ledger.old bytes.now mid ledger.new × IsTaken G.lets mid gate.old bytes.now datagram.now peers.new.items gate.new) }
    ensures err { IfErr result (λ reason. (mid : List Peer) × Extends K.writes peers.old.items ledger.old bytes.now mid ledger.new × IsLost G.lets reason mid gate.old bytes.now peers.new.items gate.new) }
{
    match admit(peers, ledger, bytes) {
        Ok(said) => {
            if gate.passes(said.sender) {
                Ok(said.datagram)
            } else {
                Err(Reason::Fast)
            }
        }
        Err(reason) => Err(reason),
    }
}

// Takes the next datagram of a peer, and counts what it drops before.
fn take_from<L: Link, K: Ledger, G: Gate>(
    link: &mut L,
    ledger: &mut K,
    gate: &mut G,
    peers: &mut Vec<Peer>,
    dropped: &mut Dropped,
    buffer: &mut [u8],
) -> Received
    ensures within { FitsRoom result (length buffer.new) }
    ensures told { Receipt L.steps K.writes G.lets peers.old.items ledger.old gate.old dropped.old link.old (receipt result buffer.new (length buffer.old)) peers.new.items ledger.new gate.new dropped.new link.new }
{
    let mut raw = [0u8; 188];
    for _ in 0..DROPS {
        match link.receive(&mut raw) {
            Received::Got(length) => match taken_in(peers, ledger, gate, &raw[..length]) {
                Ok(datagram) => return Received::Got(copy_front(datagram, buffer)),
                Err(reason) => dropped.count(reason),
            },
            Received::Nothing => return Received::Nothing,
            Received::Failed => return Received::Failed,
        }
    }
    Received::Nothing
}

impl<L: Link, K: Ledger, G: Gate> SealedLink<L, K, G> {
    /// A link over this one that seals as this number under this key, with counters from `next` on, and takes what these peers seal, as often as the gate
    /// lets them pass. Before it uses a counter that is neither reserved (`reserve`) nor allowed to a peer (`allow`), it has it written down by the ledger.
    pub fn over(
        link: L,
        ledger: K,
        gate: G,
        number: u16,
        key: [u8; 32],
        next: u64,
        peers: Vec<Peer>,
    ) -> SealedLink<L, K, G>
        ensures link { (result.link ≡ link) × (result.ledger ≡ ledger) × (result.gate ≡ gate) }
        ensures own { (result.number ≡ number) × (result.key ≡ key) × (result.next ≡ next) × (result.reserved ≡ next) }
        ensures peers { result.peers ≡ peers }
        ensures fresh { (result.failures ≡ 0) × (result.dropped ≡ record { not_sealed = 0; strangers = 0; forged = 0; stale = 0; ahead = 0; fast = 0 }) }
    {
        SealedLink {
            link,
            ledger,
            gate,
            number,
            key,
            next,
            reserved: next,
            peers,
            dropped: Dropped {
                not_sealed: 0,
                strangers: 0,
                forged: 0,
                stale: 0,
                ahead: 0,
                fast: 0,
            },
            failures: 0,
        }
    }

    /// The link below.
    pub fn below(&self) -> &L
        ensures { result.now ≡ self.now.link }
    {
        &self.link
    }

    /// The counter of the next send.
    pub fn next(&self) -> u64
        ensures { result ≡ self.now.next }
    {
        self.next
    }

    /// The first counter that it may not use.
    pub fn reserved(&self) -> u64
        ensures { result ≡ self.now.reserved }
    {
        self.reserved
    }

    /// Lets it use the counters below this one. Who calls it has written down that they may be used, so that after a restart none is used again.
    pub fn reserve(&mut self, upto: u64)
        ensures { self.new ≡ record self.old { reserved = max self.old.reserved upto } }
    {
        self.reserved = self.reserved.max(upto);
    }

    /// Lets the peer at a place use the counters below this one. Who calls it has written down that they may be taken, so that after a restart none of
    /// them is taken.
    pub fn allow(&mut self, place: usize, upto: u64)
        requires { place < length self.old.peers.items }
        ensures allowed { self.new.peers.items ≡ allow_at self.old.peers.items place upto }
        ensures link { (self.new.link ≡ self.old.link) × (self.new.ledger ≡ self.old.ledger) × (self.new.gate ≡ self.old.gate) }
        ensures own { (self.new.number ≡ self.old.number) × (self.new.key ≡ self.old.key) }
        ensures counters { (self.new.next ≡ self.old.next) × (self.new.reserved ≡ self.old.reserved) }
        ensures counts { (self.new.failures ≡ self.old.failures) × (self.new.dropped ≡ self.old.dropped) }
    {
        let mut peer = self.peers[place];
        peer.upto = peer.upto.max(upto);
        self.peers[place] = peer;
    }

    /// The peers, with their windows.
    pub fn peers(&self) -> &[Peer]
        ensures { result.now ≡ self.now.peers.items }
    {
        self.peers.as_slice()
    }

    /// How many datagrams were dropped, by the reason.
    pub fn refused(&self) -> Dropped
        ensures { result ≡ self.now.dropped }
    {
        self.dropped
    }

    // Sees to it that a counter is left, as far as more are written down.
    fn refill(&mut self)
        ensures told { Refills K.writes (record {
          number = self.old.number;
          key = self.old.key;
          next = self.old.next;
          reserved = self.old.reserved;
          peers = self.old.peers.items;
          dropped = self.old.dropped;
        }) self.old.ledger (record {
          number = self.new.number;
          key = self.new.key;
          next = self.new.next;
          reserved = self.new.reserved;
          peers = self.new.peers.items;
          dropped = self.new.dropped;
        }) self.new.ledger }
        ensures kept { (self.new.link ≡ self.old.link) × (self.new.failures ≡ self.old.failures) × (self.new.gate ≡ self.old.gate) }
        ensures same { (self.new.next ≡ self.old.next) × (self.new.number ≡ self.old.number) × (self.new.key ≡ self.old.key) × (self.new.peers ≡ self.old.peers) × (self.new.dropped ≡ self.old.dropped) }
    {
        if self.next < self.reserved {
            return;
        }
        let upto = self.next.saturating_add(STEP);
        if self.ledger.reserve(upto) {
            self.reserved = upto;
        }
    }

    // Seals a datagram and sends it, or refuses it.
    fn pass(&mut self, bytes: &[u8]) -> bool
        ensures told { Sends L.steps K.writes (record {
          number = self.old.number;
          key = self.old.key;
          next = self.old.next;
          reserved = self.old.reserved;
          peers = self.old.peers.items;
          dropped = self.old.dropped;
        }) self.old.ledger self.old.link bytes.now result
            (record {
              number = self.new.number;
              key = self.new.key;
              next = self.new.next;
              reserved = self.new.reserved;
              peers = self.new.peers.items;
              dropped = self.new.dropped;
            }) self.new.ledger self.new.link }
        ensures kept { (self.new.failures ≡ self.old.failures) × (self.new.gate ≡ self.old.gate) }
    {
        self.refill();
        if self.next >= self.reserved || bytes.len() > 160 {
            return false;
        }
        let sealed = seal(&self.key, self.number, self.next, bytes);
        self.next += 1;
        self.link.send(sealed.as_slice())
    }
}

/// A send seals the datagram with the next counter and sends it once; with no counter that is written down, or more than 160 bytes, it fails, and the link
/// below is left alone. A receive hands on the datagram of what a peer sealed, if its counter is fresh and written down, which is taken then, and the gate lets
/// that peer pass; all else is dropped, sixteen at most, and counted. Once 2^64 - 1 calls have failed the link below is left alone.
impl<L: Link, K: Ledger, G: Gate> Link for SealedLink<L, K, G> {
    ghost count = { λ l. l.failures };

    ghost steps = { λ l call m. SealedStep L.steps K.writes G.lets l.failures
        (record { number = l.number; key = l.key; next = l.next; reserved = l.reserved; peers = l.peers.items; dropped = l.dropped }) l.ledger l.gate l.link call
        (record { number = m.number; key = m.key; next = m.next; reserved = m.reserved; peers = m.peers.items; dropped = m.dropped }) m.ledger m.gate m.link };

    fn send(&mut self, bytes: &[u8]) -> bool {
        if self.failures == u64::MAX {
            return true;
        }
        let done = self.pass(bytes);
        if !done {
            self.failures += 1;
        }
        done
    }

    fn receive(&mut self, buffer: &mut [u8]) -> Received {
        if self.failures == u64::MAX {
            return Received::Nothing;
        }
        let received = take_from(
            &mut self.link,
            &mut self.ledger,
            &mut self.gate,
            &mut self.peers,
            &mut self.dropped,
            buffer,
        );
        if matches!(received, Received::Failed) {
            self.failures += 1;
        }
        received
    }

    fn failures(&self) -> u64 {
        self.failures
    }

    fn dropped(&self) -> u64 {
        self.dropped
            .not_sealed
            .saturating_add(self.dropped.strangers)
            .saturating_add(self.dropped.forged)
            .saturating_add(self.dropped.stale)
            .saturating_add(self.dropped.ahead)
            .saturating_add(self.dropped.fast)
            .saturating_add(self.link.dropped())
    }

    fn wait(&self, most: Duration) {
        if self.failures < u64::MAX {
            self.link.wait(most);
        }
    }
}
