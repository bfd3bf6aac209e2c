//! Peers, and what becomes of bytes that come from them.

ghost use Rattle.std.specs.Prelude.{◌≡◌, ◌<◌, length, ℕ, nat_le, true, IfSome, IfNone, IfOk, IfErr, None, List};
ghost use Rattle.std.specs.List.{position_from};
ghost use Rattle.fb_seal.specs.Reading.{has_form};
ghost use Rattle.fb_seal.specs.Window.{takes};
ghost use Rattle.fb_seal.specs.declared.peers.Peer.{Peer};
ghost use Rattle.fb_seal.specs.Ledger.{Extends, ExtendsAt};
ghost use Rattle.fb_seal.specs.Peers.{Admits, IsRefused, RefusesAt, TakesAt, has_sealed, is_known, sealer, sender_in};

use crate::form::{Envelope, is_tagged, said_in};
use crate::ledger::Ledger;
use crate::window::Window;

/// How many counters a peer is allowed at once, from the one on that came: as many as a window holds. After a restart none of them is taken.
const AHEAD: u64 = 64;

/// One who may send: its number, the key under which it seals, and which of its counters were taken.
#[derive(Clone, Copy)]
pub struct Peer {
    pub number: u16,
    pub key: [u8; 32],
    pub window: Window,
    /// The first counter that it may not use yet.
    pub upto: u64,
}

impl Peer {
    /// A peer at the start. Of its counters below `upto`, which may have been taken before a restart, none is taken; others are once they are allowed.
    pub fn after(number: u16, key: [u8; 32], upto: u64) -> Peer
        ensures own { (result.number ≡ number) × (result.key ≡ key) × (result.upto ≡ upto) }
        ensures window { (other : ℕ) → takes result.window other ≡ nat_le upto other }
    {
        let window = match upto.checked_sub(1) {
            Some(last) => Window::above(last),
            None => Window::new(),
        };
        Peer {
            number,
            key,
            window,
            upto,
        }
    }
}

/// Why bytes that came are dropped.
#[derive(Clone, Copy)]
pub enum Reason {
    /// They have not the form of a sealed datagram.
    NotSealed,
    /// No peer has the number of their sender.
    Stranger,
    /// Their tag is under no key of the peers with that number.
    Forged,
    /// Their counter was taken before, or is 64 or more below the highest one.
    Stale,
    /// Their sender may not use that counter yet.
    Ahead,
    /// Their sender may send again only later.
    Fast,
}

// Whether a peer has this number, and sealed these bytes.
fn has_sealed(peer: &Peer, sender: u16, bytes: &[u8]) -> bool
    ensures { result ≡ has_sealed bytes.now sender peer.now }
{
    peer.number == sender && is_tagged(&peer.key, bytes)
}

// The place of the first peer that has this number and sealed these bytes.
fn sealer(peers: &[Peer], sender: u16, bytes: &[u8]) -> Option<usize>
    ensures { result ≡ position_from (has_sealed bytes.now sender) 0 peers.now }
{
    for place in 0..peers.len() {
        if has_sealed(&peers[place], sender, bytes) {
            return Some(place);
        }
    }
    None
}

// Whether a peer has this number.
fn is_known(peers: &[Peer], sender: u16) -> bool
    ensures { result ≡ is_known peers.now sender }
{
    peers.iter().any(|peer| peer.number == sender)
}

// Why bytes are dropped that no peer sealed.
fn unsealed(peers: &[Peer], sender: u16, bytes: &[u8]) -> Reason
    requires form { has_form bytes.now ≡ true }
    requires sender { sender ≡ sender_in bytes.now }
    requires none { sealer bytes.now peers.now ≡ None }
    ensures { IsRefused result peers.now bytes.now }
{
    if is_known(peers, sender) {
        Reason::Forged
    } else {
        Reason::Stranger
    }
}

// Takes a counter of the peer at a place, or answers why not.
fn take_at(peers: &mut Vec<Peer>, place: usize, counter: u64) -> Option<Reason>
    requires { place < length peers.old.items }
    ensures taken { IfNone result (TakesAt peers.old.items place counter peers.new.items) }
    ensures refused { IfSome result (λ reason. RefusesAt reason peers.old.items place counter peers.new.items) }
{
    let mut peer = peers[place];
    if counter >= peer.upto {
        return Some(Reason::Ahead);
    }
    if !peer.window.take(counter) {
        return Some(Reason::Stale);
    }
    peers[place] = peer;
    None
}

// Has more counters of the peer at a place written down, where it may not use this one yet, and allows them once they are.
fn extend_at<K: Ledger>(peers: &mut Vec<Peer>, ledger: &mut K, place: usize, counter: u64)
    requires { place < length peers.old.items }
    ensures told { ExtendsAt K.writes peers.old.items ledger.old place counter peers.new.items ledger.new }
    ensures sealers { (bytes : List ℕ) → sealer bytes peers.new.items ≡ sealer bytes peers.old.items }
    ensures as_many { length peers.new.items ≡ length peers.old.items }
{
    let mut known = peers[place];
    if counter < known.upto || counter == u64::MAX {
        return;
    }
    let upto = counter.saturating_add(AHEAD);
    if ledger.allow(place, upto) {
        known.upto = known.upto.max(upto);
        peers[place] = known;
    }
}

/// What a peer sealed in these bytes, whose counter is taken now; or why they are dropped. Where the peer may not use that counter yet,
/// it is allowed it first, and 63 more, once these are written down. Whatever else is dropped leaves all as it is.
pub fn admit<'a, K: Ledger>(
    peers: &mut Vec<Peer>,
    ledger: &mut K,
    bytes: &'a [u8],
) -> Result<Envelope<'a>, Reason>
    ensures ok { IfOk result (λ e. (mid : List Peer) × Extends K.writes peers.old.items ledger.old bytes.now mid ledger.new × Admits mid bytes.now e.datagram.now peers.new.items) }
    ensures sender { IfOk result (λ e. e.sender ≡ sender_in bytes.now) }
    ensures err { IfErr result (λ reason. Extends K.writes peers.old.items ledger.old bytes.now peers.new.items ledger.new × IsRefused reason peers.new.items bytes.now) }
{
    let Some(said) = said_in(bytes) else {
        return Err(Reason::NotSealed);
    };
    match sealer(peers, said.sender, bytes) {
        Some(place) => {
            extend_at(peers, ledger, place, said.counter);
            match take_at(peers, place, said.counter) {
                None => Ok(said),
                Some(reason) => Err(reason),
            }
        }
        None => Err(unsealed(peers, said.sender, bytes)),
    }
}
