//! Stamps of messages, and what a SUBSCRIBE keeps of them: this project's profile.

ghost use Rattle.std.specs.Prelude.{◌≡◌, Some, slice_get, IfOk, IfErr};
ghost use Rattle.fb_model.specs.Wires.{Leaf};
ghost use Rattle.fb_model.specs.Devices.{Arrival, with_stamp};
ghost use Rattle.fb_wire.specs.Views.{stamped_of, stamp_of};
ghost use Rattle.fb_device_state.specs.Machines.{running_rows, running_device, running_leaves, running_state};
ghost use Rattle.fb_device_state.specs.Keeping.{IsGood};
ghost use Rattle.fb_device_state.specs.Arrivals.{IsArrival, Admits, IsShort};
ghost use Rattle.fb_device_arrivals.specs.Stamping.{is_later_than, latest_in, stale_in, CanKeep};

use fb_chart::{Condition, Point, Stamps, Standing, Values};
use fb_device_state::{Program, Running, Shortage, admit};
use fb_wire::Stamp;

// Whether a stamp is later than another: of a later boot, or of the same and further on.
fn is_later(one: Stamp, other: Stamp) -> bool
    ensures { result ≡ is_later_than one other }
{
    one.boot > other.boot || (one.boot == other.boot && one.sequence > other.sequence)
}

// The stamp of the message that an open SUBSCRIBE admitted last.
fn latest(condition: Condition) -> Option<Stamp>
    ensures { result ≡ latest_in condition }
{
    match condition {
        Condition::Service(Standing::Ready(Stamps::Latest(stamp))) => Some(stamp),
        _ => None,
    }
}

/// The stamp that is kept, where a message with this one is not later.
pub(crate) fn stale(condition: Condition, stamp: Option<Stamp>) -> Option<Stamp>
    ensures { result ≡ stale_in condition stamp }
{
    let (Some(stamp), Some(last)) = (stamp, latest(condition)) else {
        return None;
    };
    if is_later(stamp, last) {
        None
    } else {
        Some(last)
    }
}

// The stamp of a message, if it has one, is kept.
fn keep(program: &Program, running: &mut Running, block: u16, stamp: Option<Stamp>)
    requires good { IsGood program.now running.old }
    requires keeps { CanKeep (running_leaves program.now running.old) (running_state program.now running.old) block (stamp_of stamp) }
    ensures machine { (leaf : Leaf) → slice_get (running_leaves program.now running.old) block ≡ Some leaf
        → running_state program.now running.new ≡ with_stamp (running_state program.now running.old) leaf (stamp_of stamp) }
    ensures good { IsGood program.now running.new }
{
    let _ = program;
    match stamp {
        Some(stamp) => {
            let kept = Stamps::Latest(stamp);
            running.memory.conditions[block as usize] = Condition::Service(Standing::Ready(kept));
        }
        None => {}
    }
}

/// Admits a message, whose stamp is kept then, if it has one. Else nothing changes.
pub(crate) fn admit_stamped(
    program: &Program,
    running: &mut Running,
    point: Point,
    values: Values,
    stamp: Option<Stamp>,
) -> Result<u64, Shortage>
    requires good { IsGood program.now running.old }
    requires arrival { (a : Arrival) × IsArrival (running_leaves program.now running.old) point values.items a }
    requires keeps { CanKeep (running_leaves program.now running.old) (running_state program.now running.old) point.block (stamp_of stamp) }
    ensures admits { (a : Arrival) → IsArrival (running_leaves program.now running.old) point values.items a
        → IfOk result (λ cause. Admits (running_rows program.now running.old) (running_device program.now running.old) (with_stamp (running_state program.now running.old) a.leaf (stamp_of stamp)) a cause (running_state program.now running.new)) }
    ensures short { (a : Arrival) → IsArrival (running_leaves program.now running.old) point values.items a
        → IfErr result (λ why. IsShort (running_rows program.now running.old) (running_device program.now running.old) (running_state program.now running.old) a why × (running_state program.now running.new ≡ running_state program.now running.old)) }
    ensures good { IsGood program.now running.new }
{
    match admit(program, running, point, values) {
        Ok(cause) => {
            keep(program, running, point.block, stamp);
            Ok(cause)
        }
        Err(why) => Err(why),
    }
}
