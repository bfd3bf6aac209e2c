//! When a device has something to do by itself.

ghost use Rattle.std.specs.Prelude.{List};
ghost use Rattle.fb_model.specs.Wires.{Leaf};
ghost use Rattle.fb_model.specs.Store.{Store};
ghost use Rattle.fb_sched.specs.Expiry.{AreArmed};
ghost use Rattle.fb_device.specs.NextDue.{IsNextDue};

use fb_sched::Timers;

/// The moment at which the first of these timers is due.
pub(crate) fn next_due(timers: &Timers) -> Option<u64>
    ensures { (store : Store) (all : List Leaf) → AreArmed store all timers.now.armed → IsNextDue store all result }
{
    timers.keeps_order();
    match timers.due_at(u64::MAX, 0) {
        Some(first) => Some(first.due),
        None => None,
    }
}
