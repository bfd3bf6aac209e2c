//! Admission of arrivals: credit and cause numbers are this project's profile.

ghost use Rattle.std.specs.Prelude.{◌≡◌, IfOk, IfErr};
ghost use Rattle.fb_model.specs.Devices.{Arrival};
ghost use Rattle.fb_device_state.specs.Machines.{running_rows, running_device, running_leaves, running_state};
ghost use Rattle.fb_device_state.specs.Keeping.{IsGood};
ghost use Rattle.fb_device_state.specs.Arrivals.{IsArrival, Admits, IsShort};

use crate::program::{Program, Running};
use fb_chart::{Point, Values};

/// Why an arrival is not admitted.
#[derive(Clone, Copy)]
pub enum Shortage {
    /// It needs so many places of its resource's queue, and so many are free.
    Places { needs: u64, free: u64 },
    /// No cause number is left.
    Numbers,
}

/// Admits an arrival as the next cause, where its resource has the places of its WEIGHT row and a number is left. Else nothing changes.
pub fn admit(
    program: &Program,
    running: &mut Running,
    point: Point,
    values: Values,
) -> Result<u64, Shortage>
    requires good { IsGood program.now running.old }
    requires arrival { (a : Arrival) × IsArrival (running_leaves program.now running.old) point values.items a }
    ensures admits { (a : Arrival) → IsArrival (running_leaves program.now running.old) point values.items a
        → IfOk result (λ cause. Admits (running_rows program.now running.old) (running_device program.now running.old) (running_state program.now running.old) a cause (running_state program.now running.new)) }
    ensures short { (a : Arrival) → IsArrival (running_leaves program.now running.old) point values.items a
        → IfErr result (λ why. IsShort (running_rows program.now running.old) (running_device program.now running.old) (running_state program.now running.old) a why × (running_state program.now running.new ≡ running_state program.now running.old)) }
    ensures good { IsGood program.now running.new }
    ensures memory { running.new.memory ≡ running.old.memory }
    ensures timers { running.new.timers ≡ running.old.timers }
    ensures clock { running.new.clock ≡ running.old.clock }
{
    let block = &program.tables.blocks[point.block as usize];
    let needs = block.events[point.event as usize].places;
    let home = block.resource as usize;
    let free = running.queues[home].free();
    if needs > free {
        return Err(Shortage::Places { needs, free });
    }
    let Some(cause) = running.next else {
        return Err(Shortage::Numbers);
    };
    running.queues[home].open(cause, point, needs, values);
    running.next = cause.checked_add(1);
    Ok(cause)
}
