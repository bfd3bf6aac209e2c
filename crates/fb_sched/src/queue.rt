//! The queue of a resource.

ghost use Rattle.std.specs.Prelude.{◌≡◌, ◌-◌, ◌+◌, ◌<◌, ◌≤◌, [], length, Some, IfOk, IfSome, IfNone};
ghost use Rattle.fb_sched.specs.Agenda.{Agenda, IsAgenda, slot_at, all_places, reactions_in, IsOpen, IsNew, IsReactionOf, Rises, HasNone};
ghost use Rattle.fb_sched.specs.Changes.{Opens, Takes, Puts, Settles, CanSettle};

use crate::reaction::{Reaction, find_in, reaction_in, rewrite};
use crate::ticket::{Ticket, append, entries_before, take_first};
use circular_buffer::HeapCircularBuffer;
use fb_chart::{Point, Values};
use slab::Slab;
use std::alloc::{AllocError, Global};
use std::marker::Model;

/// The queue of a resource: its pending entries, first to last, and the causes that have not ended, each in a slot.
///
/// Events propagate in the order of their entries: IEC 61499-1 edition 2, 4.5.3 and 5.2.2. Causes, credit and the bound on entries are this project's profile.
///
/// An arrival is admitted by `open`, where `free` leaves the places of its WEIGHT row. A dispatch is `take`, then `put` for each event input that the outputs of the block reach, then `settle` with the steps of the run. No call but `new` changes the memory of entries and causes; that each takes constant time no clause says.
///
/// A slot is a number from 0, free again once its cause has ended. Places count entries, and steps are those of the certificate.
#[derive(Drop)]
pub struct Queue {
    ring: HeapCircularBuffer<Ticket>,
    reactions: Slab<Reaction>,
    // The places of all reactions.
    used: u64,
}

impl Model for Queue {
    ghost use Rattle.fb_sched.specs.Agenda.{Agenda};

    ghost Value = { Agenda };

    ghost use Rattle.fb_sched.specs.Keeping.{agenda_of, IsKept};

    ghost view = { λ q. agenda_of q.ring q.reactions };

    ghost invariant = { λ q. IsKept q.ring q.reactions q.used };
}

impl Queue {
    /// A queue with no entries, for at most `depth` entries and `depth` causes that have not ended.
    pub fn new(alloc: Global, depth: usize) -> Result<Queue, AllocError>
        ensures empty { IfOk result (λ queue. queue ≡ record { tickets = []; slots = []; room = depth }) }
        ensures sound { IfOk result IsAgenda }
    {
        let ring = HeapCircularBuffer::with_capacity(alloc, depth)?;
        let reactions = Slab::with_capacity(alloc, depth)?;
        // A slab promises no less room than is asked for. No call changes the room that is there, and so none needs more.
        if reactions.capacity() != depth {
            return Err(AllocError);
        }
        Ok(Queue {
            ring,
            reactions,
            used: 0,
        })
    }

    /// The number of pending entries.
    pub fn len(&self) -> usize
        ensures len { result ≡ length self.now.tickets }
        ensures sound { IsAgenda self.now }
    {
        self.ring.len()
    }

    /// The places that no open cause holds, by a running number.
    pub fn free(&self) -> u64
        ensures free { result ≡ self.now.room - all_places self.now.slots }
        ensures sound { IsAgenda self.now }
    {
        self.ring.capacity() as u64 - self.used
    }

    /// Opens a cause: appends the entry of its arrival, with the arrival's values, and gives it a free slot.
    pub fn open(&mut self, cause: u64, opening: Point, places: u64, values: Values)
        requires entries { length self.old.tickets < self.old.room }
        requires reactions { reactions_in self.old.slots < self.old.room }
        requires places { all_places self.old.slots + places ≤ self.old.room }
        requires cause { IsNew cause self.old.slots }
        ensures opens { Opens self.old cause opening places values self.new }
        ensures sound { IsAgenda self.new }
    {
        let slot = self.reactions.insert_reserved(Reaction {
            cause,
            opening,
            places,
            pending: 1,
            steps: 0,
        });
        self.used += places;
        append(
            &mut self.ring,
            Ticket {
                slot,
                point: opening,
                values,
            },
        );
    }

    /// Takes the first entry. Its cause keeps its slot, also where no other entry of it is pending: its block runs now.
    pub fn take(&mut self) -> Option<Ticket>
        ensures none { IfNone result ((self.old.tickets ≡ []) × (self.new ≡ self.old)) }
        ensures first { IfSome result (λ first. Takes self.old first self.new) }
        ensures sound { IsAgenda self.new }
    {
        let first = take_first(&mut self.ring);
        if let Some(ticket) = &first {
            let mut reaction = reaction_in(&self.reactions, ticket.slot);
            reaction.pending -= 1;
            rewrite(&mut self.reactions, ticket.slot, reaction);
        }
        first
    }

    /// Appends an entry of an open cause, without values.
    pub fn put(&mut self, slot: usize, point: Point)
        requires entries { length self.old.tickets < self.old.room }
        requires slot { IsOpen self.old.slots slot }
        ensures puts { Puts self.old slot point self.new }
        ensures sound { IsAgenda self.new }
    {
        let mut reaction = reaction_in(&self.reactions, slot);
        reaction.pending += 1;
        rewrite(&mut self.reactions, slot, reaction);
        append(
            &mut self.ring,
            Ticket {
                slot,
                point,
                values: Values::new(),
            },
        );
    }

    /// Adds the steps of a run to a cause. Where no entry of the cause is pending it has ended: its slot is free, and the reaction is handed out with all its steps.
    pub fn settle(&mut self, slot: usize, steps: u64) -> Option<Reaction>
        requires { CanSettle self.old slot steps }
        ensures settles { Settles self.old slot steps result self.new }
        ensures sound { IsAgenda self.new }
    {
        let mut reaction = reaction_in(&self.reactions, slot);
        reaction.steps += steps;
        if reaction.pending > 0 {
            rewrite(&mut self.reactions, slot, reaction);
            return None;
        }
        self.reactions.remove(slot);
        self.used -= reaction.places;
        Some(reaction)
    }

    /// The reaction in a slot.
    pub fn reaction(&self, slot: usize) -> Option<Reaction>
        ensures { result ≡ slot_at self.now.slots slot }
    {
        self.reactions.get(slot).copied()
    }

    /// The reaction of a cause, where an entry is of it, and no entry behind one of this or a newer cause is of an older cause: so it is where the cause has
    /// just been opened, alone or with others. It is looked for by halving.
    pub fn find_newest(&self, cause: u64) -> Option<Reaction>
        ensures found { IfSome result (IsReactionOf cause self.now.slots) }
        ensures none { IfNone result (Rises cause self.now.slots self.now.tickets → HasNone cause self.now.slots self.now.tickets) }
    {
        let place = entries_before(&self.ring, &self.reactions, cause);
        let Some(ticket) = self.ring.get(place) else {
            return None;
        };
        let reaction = reaction_in(&self.reactions, ticket.slot);
        if reaction.cause == cause {
            Some(reaction)
        } else {
            None
        }
    }

    /// The reaction of a cause. It is looked for in each slot.
    pub fn find(&self, cause: u64) -> Option<Reaction>
        ensures found { IfSome result (IsReactionOf cause self.now.slots) }
        ensures none { IfNone result (IsNew cause self.now.slots) }
    {
        find_in(&self.reactions, cause)
    }
}
