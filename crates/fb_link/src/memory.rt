//! Links in memory.

ghost use Rattle.std.specs.Prelude.{◌≡◌, ◌≤◌, List, ℕ, [], map, drop, take, length, min, slice_get, None, Some, IfOk, MatchOption};
ghost use Rattle.fb_words.specs.Links.{LinkCall};
ghost use Rattle.fb_link.specs.Memory.{Memory, MemorySteps, is_among, next_number};

use crate::link::{Link, Received};
use arrayvec::ArrayVec;
use std::alloc::{AllocError, Global};
use std::marker::Model;

/// A link in memory: it hands out the datagrams that it was made with, keeps those that it takes while there is room, and fails in the calls that are planned
/// to fail. It tells all that it does. Only `new` takes memory.
#[derive(Drop)]
pub struct MemoryLink {
    held: Vec<Vec<u8>>,
    handed: usize,
    taken: Vec<ArrayVec<u8, 160>>,
    failing_receives: Vec<u64>,
    failing_sends: Vec<u64>,
    receives: u64,
    sends: u64,
    failures: u64,
}

impl Model for MemoryLink {
    ghost use Rattle.std.specs.Prelude.{◌≡◌, ◌≤◌, map, drop, length, vec_len, vec_capacity};
    ghost use Rattle.fb_link.specs.Memory.{Memory};

    ghost Value = { Memory };

    ghost view = { λ m. record {
      waiting = map (λ d. d.items) (drop m.handed m.held.items);
      taken = map (λ d. d.items) m.taken.items;
      room = vec_capacity m.taken;
      failing_receives = m.failing_receives.items;
      failing_sends = m.failing_sends.items;
      receives = m.receives;
      sends = m.sends;
      failures = m.failures;
    } };

    ghost invariant = { λ m. m.handed ≤ vec_len m.held };
}

/// The receives and the sends that are to fail, each by its number among its kind, from 1.
#[derive(Drop)]
pub struct Plan {
    pub receives: Vec<u64>,
    pub sends: Vec<u64>,
}

// The number of the next call.
fn next(count: u64) -> u64
    ensures { result ≡ next_number count }
{
    if count < u64::MAX { count + 1 } else { count }
}

// Whether a call is planned to fail.
fn is_planned(plan: &[u64], number: u64) -> bool
    ensures { result ≡ is_among plan.now number }
{
    plan.iter().any(|k| *k == number)
}

// Copies the first bytes, as far as there is room, and answers how many.
fn copy_front(from: &[u8], to: &mut [u8]) -> usize
    ensures fits { result ≤ length to.new }
    ensures front { take result to.new ≡ take (length to.old) from.now }
{
    let n = from.len().min(to.len());
    to[..n].copy_from_slice(&from[..n]);
    n
}

impl MemoryLink {
    /// A link that hands out these datagrams, in order, and has room for so many.
    pub fn new(
        alloc: Global,
        held: Vec<Vec<u8>>,
        room: usize,
        plan: Plan,
    ) -> Result<Self, AllocError>
        ensures { IfOk result (λ m. m ≡ record {
          waiting = map (λ d. d.items) held.items;
          taken = [];
          room = room;
          failing_receives = plan.receives.items;
          failing_sends = plan.sends.items;
          receives = 0;
          sends = 0;
          failures = 0;
        }) }
    {
        Ok(MemoryLink {
            held,
            handed: 0,
            taken: Vec::with_capacity(alloc, room)?,
            failing_receives: plan.receives,
            failing_sends: plan.sends,
            receives: 0,
            sends: 0,
            failures: 0,
        })
    }

    /// How many datagrams it took.
    pub fn taken_len(&self) -> usize
        ensures { result ≡ length self.now.taken }
    {
        self.taken.len()
    }

    /// Of the datagrams that it took, the one of an index.
    pub fn taken(&self, index: usize) -> Option<&[u8]>
        ensures { MatchOption result (slice_get self.now.taken index ≡ None) (λ bytes. slice_get self.now.taken index ≡ Some bytes.now) }
    {
        Some(self.taken.get(index)?.as_slice())
    }
}

impl Link for MemoryLink {
    ghost count = { λ m. m.failures };

    ghost steps = { MemorySteps };

    fn send(&mut self, bytes: &[u8]) -> bool {
        if self.failures == u64::MAX {
            return true;
        }
        self.sends = next(self.sends);
        let mut copy = ArrayVec::new();
        if is_planned(&self.failing_sends, self.sends)
            || self.taken.len() >= self.taken.capacity()
            || copy.try_extend_from_slice(bytes).is_err()
        {
            self.failures += 1;
            return false;
        }
        self.taken.push_reserved(copy);
        true
    }

    fn receive(&mut self, buffer: &mut [u8]) -> Received {
        if self.failures == u64::MAX {
            return Received::Nothing;
        }
        self.receives = next(self.receives);
        if is_planned(&self.failing_receives, self.receives) {
            self.failures += 1;
            return Received::Failed;
        }
        if self.handed >= self.held.len() {
            return Received::Nothing;
        }
        let n = copy_front(&self.held[self.handed], buffer);
        self.handed += 1;
        Received::Got(n)
    }

    fn failures(&self) -> u64 {
        self.failures
    }
}
