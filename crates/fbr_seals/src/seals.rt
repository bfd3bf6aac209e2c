//! What a device seals with, and whose seals it opens.

ghost use Rattle.std.specs.Prelude.{◌≡◌, ◌⊎◌, ◌+◌, MatchResult};
ghost use Rattle.fb_keys.specs.Views.{state_of};
ghost use Rattle.fbr_files.specs.Outcomes.{IsReadFault};
ghost use Rattle.fbr_files.specs.Writing.{LeavesOthers};
ghost use Rattle.fbr_seals.specs.Sealing.{TakesState};

use crate::keep::{Mark, StateFile};
use crate::secrets::{Secret, Unsaid, secrets_in};
use crate::taking::take_state;
use fb_keys::{State, mark_of};
use fb_link::Peers;
use fb_pace::Buckets;
use fb_seal::Peer;
use fbr_files::{Fault, Sources};
use fbr_words::Sealing;
use std::alloc::{AllocError, Global};
use std::io::Write;

/// What a device seals with, and whose seals it opens.
#[derive(Drop)]
pub struct Seals<K> {
    pub number: u16,
    pub key: [u8; 32],
    /// The first own counter that it may use, and the first that it may not.
    pub next: u64,
    pub reserved: u64,
    pub peers: Vec<Peer>,
    /// How often each of them may send.
    pub buckets: Buckets,
    pub file: StateFile<K>,
    /// To whom it sends.
    pub to: Peers,
}

// The peers at the start: what was allowed to them before is taken no more.
fn peers_in(
    alloc: Global,
    secrets: &[Secret],
    state: &State,
    marks: &mut Vec<Mark>,
) -> Result<Vec<Peer>, AllocError> {
    let mut peers = Vec::new(alloc);
    for secret in secrets {
        let (number, mark) = (secret.number, mark_of(&secret.key));
        marks.push(Mark { number, mark })?;
        peers.push(Peer::after(number, secret.key, state.upto(number, &mark)))?;
    }
    Ok(peers)
}

/// The seals of a device: its keys out of the file of keys, and its counters out of the state file, which holds the next state then. `File`, 61, where one of
/// these files cannot be used, and people are told why.
pub fn open_seals<'a, S: Sources, E: Write>(
    alloc: Global,
    files: &mut S,
    sealing: Sealing<'a>,
    peers: &Peers,
    errors: &mut E,
) -> Result<Seals<S::Keeper>, Fault<'a>>
    ensures taken { MatchResult result (λ seals. TakesState (S.contents files.old sealing.entry.state.now) (S.contents files.new sealing.entry.state.now) (state_of seals.file.state) × (seals.next + 65536 ≡ seals.file.state.own) × (seals.reserved ≡ seals.file.state.own)) (λ f. IsReadFault sealing.entry.keys.now f ⊎ IsReadFault sealing.entry.state.now f) }
    ensures others { LeavesOthers (S.same files.old) sealing.entry.state.now (S.contents files.old) (S.contents files.new) }
    ensures names { S.same files.new ≡ S.same files.old }
{
    let secrets = match secrets_in(alloc, files, sealing.keys, peers, errors) {
        Ok(secrets) => secrets,
        Err(Unsaid::Memory) => return Err(Fault::Memory),
        Err(Unsaid::Told) => return Err(Fault::File(sealing.keys)),
    };
    let keeper = match files.keeper(alloc, sealing.state) {
        Ok(keeper) => keeper,
        Err(_) => return Err(Fault::Memory),
    };
    let state = match take_state(alloc, files, sealing.state, errors) {
        Ok(state) => state,
        Err(fault) => return Err(fault),
    };
    let mut marks = Vec::new(alloc);
    let peers = match peers_in(alloc, secrets.others.as_slice(), &state, &mut marks) {
        Ok(peers) => peers,
        Err(_) => return Err(Fault::Memory),
    };
    let reserved = state.own;
    Ok(Seals {
        number: secrets.own.number,
        key: secrets.own.key,
        next: reserved - 65_536,
        reserved,
        peers,
        buckets: Buckets::new(secrets.paced),
        file: StateFile::new(alloc, keeper, state, marks),
        to: secrets.to,
    })
}
