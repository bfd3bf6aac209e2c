//! The queues of resources.

ghost use Rattle.std.specs.Prelude.{◌≡◌, ◌≤◌, [], length, MatchOption, Some};
ghost use Rattle.fb_sched.specs.Agenda.{slot_at, IsOpen};
ghost use Rattle.fb_device_state.specs.Numbers.{event_at, steps_in, IsKnown};
ghost use Rattle.fb_device_dispatch.specs.Taking.{IsIdle, HasTaken, CanEnter, HasEntered};

use fb_chart::{Block, Point};
use fb_sched::{Outbox, Queue, Reaction, Ticket};

/// Takes the first entry of a resource.
pub(crate) fn take(queues: &mut Vec<Queue>, resource: usize) -> Option<Ticket>
    ensures { MatchOption result (IsIdle queues.old.items resource queues.new.items) (λ first. HasTaken queues.old.items resource first queues.new.items) }
{
    if resource >= queues.len() {
        return None;
    }
    queues[resource].take()
}

// The reaction of a slot that holds one.
fn reaction_at(queue: &Queue, slot: usize) -> Reaction
    requires { IsOpen queue.now.slots slot }
    ensures { slot_at queue.now.slots slot ≡ Some result }
{
    match queue.reaction(slot) {
        Some(reaction) => reaction,
        None => unreachable!(),
    }
}

/// Enters what a block has emitted, and notes its steps. Answers its reaction as it was before, and as it has ended if none of its entries is left.
pub(crate) fn enter(
    queues: &mut Vec<Queue>,
    resource: usize,
    outbox: &mut Outbox,
    slot: usize,
    steps: u64,
) -> (Reaction, Option<Reaction>)
    requires { CanEnter queues.old.items resource outbox.old.items slot steps }
    ensures entered { HasEntered queues.old.items resource outbox.old.items slot steps result.0 result.1 queues.new.items }
    ensures empty { outbox.new.items ≡ [] }
    ensures room { outbox.new.capacity ≡ outbox.old.capacity }
    ensures within { length outbox.old.items ≤ outbox.old.capacity }
{
    let queue = &mut queues[resource];
    outbox.deliver(queue, slot);
    let reaction = reaction_at(queue, slot);
    let ended = queue.settle(slot, steps);
    (reaction, ended)
}

/// The steps of a point's WEIGHT row.
pub(crate) fn steps_at(blocks: &[Block], point: Point) -> u64
    requires { IsKnown blocks.now point }
    ensures { result ≡ steps_in (event_at blocks.now point) }
{
    blocks[point.block as usize].events[point.event as usize].steps
}
