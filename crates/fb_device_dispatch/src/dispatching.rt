//! A dispatch.

ghost use Rattle.std.specs.Prelude.{◌≡◌, ◌<◌, length, Some, slice_get};
ghost use Rattle.std.specs.Option.{option_map};
ghost use Rattle.fb_model.specs.Devices.{Dispatch};
ghost use Rattle.fb_device_state.specs.Machines.{running_leaves, Steps};
ghost use Rattle.fb_device_state.specs.Keeping.{IsGood};
ghost use Rattle.fb_device_dispatch.specs.Answers.{dispatched_of, HasPoint, end_by};

use crate::answer::{Dispatched, Ended, Ran};
use crate::queue::{enter, steps_at, take};
use crate::timing::retime;
use fb_chart::{Condition, Memory, Occurrence, dispatch_block};
use fb_device_state::{Program, Running};
use fb_sched::Reaction;

// What a block remembers.
fn remembered(memory: &Memory, block: u16) -> Condition
    requires { block < length memory.now.conditions.items }
    ensures { slice_get memory.now.conditions.items block ≡ Some result }
{
    memory.conditions[block as usize]
}

// The end of a cause.
fn end_of(ended: Option<Reaction>, bound: u64) -> Option<Ended>
    ensures { result ≡ option_map (end_by bound) ended }
{
    match ended {
        Some(reaction) => Some(Ended {
            cause: reaction.cause,
            total: reaction.steps,
            bound,
        }),
        None => None,
    }
}

/// Takes the first entry of a resource, and runs its block to its end. `Idle` where nothing is pending or there is no such resource.
pub fn dispatch(program: &Program, running: &mut Running, resource: usize) -> Dispatched
    requires { IsGood program.now running.old }
    ensures step { Steps program.now running.old (Dispatch resource) (dispatched_of (running_leaves program.now running.old) result) running.new }
    ensures point { HasPoint (running_leaves program.now running.old) result }
    ensures good { IsGood program.now running.new }
{
    let Some(first) = take(&mut running.queues, resource) else {
        return Dispatched::Idle;
    };
    let point = first.point;
    let occurrence = Occurrence {
        point,
        values: &first.values,
        clock: running.clock,
    };
    let mut effect = None;
    let steps_taken = dispatch_block(
        &program.tables.blocks,
        &program.tables.ports,
        &mut running.memory,
        &occurrence,
        &mut running.outbox,
        &mut effect,
    );
    let now = remembered(&running.memory, point.block);
    retime(
        &mut running.timers,
        &program.tables.blocks[point.block as usize].body,
        point.block,
        now,
    );
    let (reaction, ended) = enter(
        &mut running.queues,
        resource,
        &mut running.outbox,
        first.slot,
        steps_taken,
    );
    let bound = steps_at(&program.tables.blocks, reaction.opening);
    Dispatched::Ran(Ran {
        cause: reaction.cause,
        block: point.block,
        event: point.event,
        steps: steps_taken,
        effect,
        ended: end_of(ended, bound),
    })
}
