//! What is pending.

ghost use Rattle.std.specs.Prelude.{ℕ, ◌≡◌, ◌<◌, ◌≤◌, ◌++◌, ◌∷◌, [], length, Some, IfSome, IfNone, slice_get};
ghost use Rattle.circular_buffer.specs.Buffer.{buffer};
ghost use Rattle.fb_sched.specs.declared.ticket.Ticket.{Ticket};
ghost use Rattle.fb_sched.specs.Agenda.{cause_in, Rises};

use crate::reaction::Reaction;
use circular_buffer::HeapCircularBuffer;
use fb_chart::{Point, Values};
use slab::Slab;

/// A pending entry: the slot of its cause, the event input or arrival that it is for, and the values of an arrival.
///
/// An entry that a block has sent has no values.
#[derive(Drop)]
pub struct Ticket {
    pub slot: usize,
    pub point: Point,
    pub values: Values,
}

/// Appends a ticket to a ring that has room for it.
pub(crate) fn append(ring: &mut HeapCircularBuffer<Ticket>, ticket: Ticket)
    requires { length ring.old.items < ring.old.capacity }
    ensures { ring.new ≡ buffer (ring.old.items ++ ticket ∷ []) ring.old.capacity }
{
    match ring.try_push_back(ticket) {
        Ok(()) => {}
        Err(_) => unreachable!(),
    }
}

/// Takes the first ticket of a ring.
pub(crate) fn take_first(ring: &mut HeapCircularBuffer<Ticket>) -> Option<Ticket>
    ensures none { IfNone result ((ring.old.items ≡ []) × (ring.new ≡ ring.old)) }
    ensures first { IfSome result (λ first. ring.old.items ≡ first ∷ ring.new.items) }
    ensures room { ring.new.capacity ≡ ring.old.capacity }
{
    ring.pop_front()
}

// The cause of an entry; 0 where there is none.
fn cause_at(ring: &HeapCircularBuffer<Ticket>, reactions: &Slab<Reaction>, index: usize) -> u64
    ensures { (t : Ticket) → slice_get ring.now.items index ≡ Some t → result ≡ cause_in reactions.now.slots t }
{
    match ring.get(index) {
        Some(ticket) => match reactions.get(ticket.slot) {
            Some(reaction) => reaction.cause,
            None => 0,
        },
        None => 0,
    }
}

// The entry to look at next, of those from `low` to `high`: one not far from their end, or where these are few the middle one.
fn look_at(low: usize, high: usize, step: usize) -> usize
    requires some { low < high }
    requires step { 1 ≤ step }
    ensures low { low ≤ result }
    ensures high { result < high }
{
    if step < high - low {
        high - step
    } else {
        low + (high - low) / 2
    }
}

/// How many entries stand before the first one that is not of an older cause, where causes do not fall from there on. The last ones are looked at first.
pub(crate) fn entries_before(
    ring: &HeapCircularBuffer<Ticket>,
    reactions: &Slab<Reaction>,
    cause: u64,
) -> usize
    ensures before { Rises cause reactions.now.slots ring.now.items → (k : ℕ) (t : Ticket) → k < result → slice_get ring.now.items k ≡ Some t → cause_in reactions.now.slots t < cause }
    ensures behind { Rises cause reactions.now.slots ring.now.items → (k : ℕ) (t : Ticket) → result ≤ k → slice_get ring.now.items k ≡ Some t → cause ≤ cause_in reactions.now.slots t }
{
    let mut low = 0;
    let mut high = ring.len();
    let mut step: usize = 1;
    while low < high {
        let place = look_at(low, high, step);
        if cause_at(ring, reactions, place) < cause {
            low = place + 1;
        } else {
            high = place;
            step = step.saturating_add(step);
        }
    }
    low
}
