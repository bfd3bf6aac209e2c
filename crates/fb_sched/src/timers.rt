//! All timers of a device that are armed.

ghost use Rattle.std.specs.Prelude.{ℕ, ◌≡◌, ◌≤◌, ◌<◌, [], length, slice_get, slice_set, slice_index_or, Option, None, Some, IfOk};
ghost use Rattle.std.specs.List.{insert};
ghost use Rattle.std.specs.VecDeque.{deque_capacity};
ghost use Rattle.fb_sched.specs.Order.{position, placed, without, due_of, due_at, if_due, IsOrdered, AreApart};

use crate::armed::Armed;
use std::alloc::{AllocError, Global};
use std::collections::VecDeque;
use std::marker::Model;

/// The timers of a device that are armed, in the order in which they expire: by due moment, and of those due at one moment in the order of their blocks.
/// Each block has one at most, and the moment at which it is due stands under the number of its block as well. Where one comes or goes, those on its shorter
/// side move. No call but `new` changes the memory that there is.
#[derive(Drop)]
pub struct Timers {
    armed: VecDeque<Armed>,
    moments: Vec<Option<u64>>,
}

impl Model for Timers {
    ghost use Rattle.fb_sched.specs.Order.{Timing, IsOrdered, AreApart, AreTold};
    ghost use Rattle.std.specs.Prelude.{◌≡◌, length};
    ghost use Rattle.std.specs.Vec.{vec_capacity};
    ghost use Rattle.std.specs.VecDeque.{deque_capacity};

    ghost Value = { Timing };

    ghost view = { λ t. record { armed = t.armed.items; room = length t.moments.items } };

    ghost invariant = { λ t. IsOrdered t.armed.items × AreApart t.armed.items × AreTold t.moments.items t.armed.items × (deque_capacity t.armed ≡ length t.moments.items) × (vec_capacity t.moments ≡ length t.moments.items) };
}

// How many timers stand before one.
fn position_of(armed: &VecDeque<Armed>, one: &Armed) -> usize
    requires { IsOrdered armed.now.items }
    ensures position { result ≡ position one.now armed.now.items }
    ensures within { result ≤ length armed.now.items }
{
    armed.partition_point(|other| other.is_ahead(one))
}

// Puts a timer in its place among others. What stands before it is turned behind the others and back, which moves the shorter side alone.
fn place(armed: &mut VecDeque<Armed>, at: usize, one: Armed)
    requires within { at ≤ length armed.old.items }
    requires room { length armed.old.items < deque_capacity armed.old }
    ensures items { armed.new.items ≡ insert armed.old.items at one }
    ensures capacity { deque_capacity armed.new ≡ deque_capacity armed.old }
{
    armed.rotate_left(at);
    armed.push_back_reserved(one);
    armed.rotate_right(at + 1);
}

// What is told of a block; none where nothing is.
fn told_of(moments: &[Option<u64>], block: u16) -> Option<u64>
    ensures { result ≡ slice_index_or moments.now block None }
{
    if usize::from(block) < moments.len() {
        return moments[usize::from(block)];
    }
    None
}

// Tells of a block when its timer is due, or that it is not armed.
fn tell(moments: &mut [Option<u64>], block: u16, moment: Option<u64>)
    requires { block < length moments.old }
    ensures { moments.new ≡ slice_set moments.old block moment }
{
    moments[usize::from(block)] = moment;
}

// The timer of an index, where it is due at a moment.
fn due_in(armed: &VecDeque<Armed>, clock: u64, index: usize) -> Option<Armed>
    ensures { result ≡ if_due clock (slice_get armed.now.items index) }
{
    if index < armed.len() && armed[index].due <= clock {
        return Some(armed[index]);
    }
    None
}

impl Timers {
    /// No timers, and room for one of each of so many blocks.
    pub fn new(alloc: Global, count: usize) -> Result<Timers, AllocError>
        ensures empty { IfOk result (λ timers. timers.armed ≡ []) }
        ensures room { IfOk result (λ timers. timers.room ≡ count) }
    {
        let armed = VecDeque::with_capacity(alloc, count)?;
        let mut moments = Vec::with_capacity(alloc, count)?;
        moments.resize(count, None)?;
        // Filling promises no less room than there was. No call changes the room that is there, and so none needs more.
        if moments.capacity() != count {
            return Err(AllocError);
        }
        Ok(Timers { armed, moments })
    }

    /// The timers stand in the order in which they expire, each block has one at most, and there is room for that of each block that has one.
    pub fn keeps_order(&self)
        ensures order { IsOrdered self.now.armed × AreApart self.now.armed }
        ensures within { (k due : ℕ) → due_of self.now.armed k ≡ Some due → k < self.now.room }
    {
        let _ = &self.armed;
    }

    /// Arms the timer of a block for a moment.
    pub fn arm(&mut self, block: u16, due: u64)
        requires quiet { due_of self.old.armed block ≡ None }
        requires known { block < self.old.room }
        ensures armed { self.new.armed ≡ placed (record { due = due; block = block }) self.old.armed }
        ensures room { self.new.room ≡ self.old.room }
    {
        let one = Armed { due, block };
        let at = position_of(&self.armed, &one);
        place(&mut self.armed, at, one);
        tell(&mut self.moments, block, Some(due));
    }

    /// Disarms the timer of a block, if it is armed.
    pub fn disarm(&mut self, block: u16)
        ensures armed { self.new.armed ≡ without self.old.armed block }
        ensures room { self.new.room ≡ self.old.room }
    {
        if let Some(due) = told_of(&self.moments, block) {
            let at = position_of(&self.armed, &Armed { due, block });
            let _ = self.armed.remove(at);
            tell(&mut self.moments, block, None);
        }
    }

    /// The moment at which the timer of a block is due; none where it is not armed.
    pub fn due(&self, block: u16) -> Option<u64>
        ensures { result ≡ due_of self.now.armed block }
    {
        told_of(&self.moments, block)
    }

    /// Of the timers that are due at a moment, in the order in which they expire, the one of an index.
    pub fn due_at(&self, clock: u64, index: usize) -> Option<Armed>
        ensures { result ≡ slice_get (due_at clock self.now.armed) index }
    {
        due_in(&self.armed, clock, index)
    }
}
