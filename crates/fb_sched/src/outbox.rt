//! What a block emits in one dispatch.

ghost use Rattle.std.specs.Prelude.{◌≡◌, ◌≤◌, ◌+◌, [], length, IfOk};
ghost use Rattle.fb_sched.specs.Agenda.{IsAgenda, IsOpen};
ghost use Rattle.fb_sched.specs.Changes.{PutsAll};

use crate::queue::Queue;
use circular_buffer::HeapCircularBuffer;
use fb_chart::{Emit, Point};
use std::alloc::{AllocError, Global};
use std::marker::Model;

/// The event inputs that a block reaches in one dispatch, in order, until they are entered into the queue of its resource. No call but `new` changes the room that there is.
#[derive(Drop)]
pub struct Outbox {
    points: HeapCircularBuffer<Point>,
}

impl Model for Outbox {
    ghost use Rattle.circular_buffer.specs.Buffer.{Buffer};
    ghost use Rattle.fb_chart.specs.declared.table.Point as table;

    ghost Value = { Buffer table.Point };

    ghost view = { λ o. o.points };
}

impl Outbox {
    /// An empty outbox, for so many event inputs.
    pub fn new(alloc: Global, room: usize) -> Result<Outbox, AllocError>
        ensures { IfOk result (λ outbox. (outbox.items ≡ []) × (outbox.capacity ≡ room)) }
    {
        Ok(Outbox {
            points: HeapCircularBuffer::with_capacity(alloc, room)?,
        })
    }

    /// Enters all that it holds into a queue, in order, as entries of an open cause. It is empty then.
    pub fn deliver(&mut self, queue: &mut Queue, slot: usize)
        requires entries { length queue.old.tickets + length self.old.items ≤ queue.old.room }
        requires slot { IsOpen queue.old.slots slot }
        ensures puts { PutsAll queue.old slot self.old.items queue.new }
        ensures sound { IsAgenda queue.new }
        ensures empty { self.new.items ≡ [] }
        ensures room { self.new.capacity ≡ self.old.capacity }
        ensures within { length self.old.items ≤ self.old.capacity }
    {
        let _ = (queue.len(), self.points.len());
        while let Some(point) = self.points.pop_front() {
            queue.put(slot, point);
        }
    }
}

impl Emit for Outbox {
    ghost use Rattle.std.specs.Prelude.{◌-◌};

    ghost room = { λ o. o.capacity - length o.items };

    ghost sent = { λ o. o.items };

    ghost reference = { λ o. 0 };

    fn put(&mut self, point: Point) {
        match self.points.try_push_back(point) {
            Ok(()) => {}
            Err(_) => unreachable!(),
        }
    }
}
