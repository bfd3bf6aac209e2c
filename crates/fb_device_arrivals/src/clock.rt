//! The clock: E_DELAY and E_CYCLE of IEC 61499-1 edition 2, annex A, this project's profile.

ghost use Rattle.std.specs.Prelude.{◌≡◌, true, false, Some, slice_get, if◌then◌else◌};
ghost use Rattle.fb_model.specs.Wires.{Leaf};
ghost use Rattle.fb_model.specs.Store.{Fired, with_leaf};
ghost use Rattle.fb_model.specs.Devices.{Tick, Expired, HasRoom, at_moment, expired, expiring};
ghost use Rattle.fb_sched.specs.Order.{without};
ghost use Rattle.fb_device_state.specs.Machines.{running_rows, running_device, running_leaves, running_state, Steps};
ghost use Rattle.fb_device_state.specs.Keeping.{IsGood};
ghost use Rattle.fb_device_arrivals.specs.Ticking.{IsTimer};

use fb_chart::{Condition, Point, Standing, Values};
use fb_device_state::{Program, Running, admit};

// The number of EXPIRE among the events of a timer.
const EXPIRE: u16 = 2;

// Sets the clock, unless the moment is earlier.
fn advance(program: &Program, running: &mut Running, now: u64)
    requires { IsGood program.now running.old }
    ensures machine { running_state program.now running.new ≡ at_moment (running_state program.now running.old) now }
    ensures good { IsGood program.now running.new }
    ensures timers { running.new.timers ≡ running.old.timers }
{
    let _ = program;
    if now > running.clock {
        running.clock = now;
    }
}

// A timer becomes fired, and is armed no longer.
fn fire(program: &Program, running: &mut Running, block: u16)
    requires good { IsGood program.now running.old }
    requires timer { IsTimer (running_leaves program.now running.old) block }
    ensures machine { (leaf : Leaf) → slice_get (running_leaves program.now running.old) block ≡ Some leaf
        → running_state program.now running.new ≡ record (running_state program.now running.old) { store = with_leaf (running_state program.now running.old).store leaf.path (record { cells = ((running_state program.now running.old).store leaf.path).cells; condition = Fired }) } }
    ensures good { IsGood program.now running.new }
    ensures timers { running.new.timers.armed ≡ without running.old.timers.armed block }
    ensures clock { running.new.clock ≡ running.old.clock }
{
    let _ = program;
    running.memory.conditions[block as usize] = Condition::Service(Standing::Fired);
    running.timers.keeps_order();
    running.timers.disarm(block);
}

// Admits the EXPIRE of a timer that is due, where its resource has the places and a cause number is left; the timer is fired then.
fn expire(program: &Program, running: &mut Running, block: u16) -> bool
    requires good { IsGood program.now running.old }
    requires timer { IsTimer (running_leaves program.now running.old) block }
    ensures fires { (leaf : Leaf) → slice_get (running_leaves program.now running.old) block ≡ Some leaf → result ≡ true
        → HasRoom (running_rows program.now running.old) (running_device program.now running.old) (running_state program.now running.old) (expiring leaf) × (running_state program.now running.new ≡ expired (running_state program.now running.old) leaf) }
    ensures stays { (leaf : Leaf) → slice_get (running_leaves program.now running.old) block ≡ Some leaf → result ≡ false
        → (HasRoom (running_rows program.now running.old) (running_device program.now running.old) (running_state program.now running.old) (expiring leaf) → ⊥) × (running_state program.now running.new ≡ running_state program.now running.old) }
    ensures armed { running.new.timers.armed ≡ (if result then without running.old.timers.armed block else running.old.timers.armed) }
    ensures good { IsGood program.now running.new }
    ensures clock { running.new.clock ≡ running.old.clock }
{
    let point = Point {
        block,
        event: EXPIRE,
    };
    match admit(program, running, point, Values::new()) {
        Ok(_) => {
            fire(program, running, block);
            true
        }
        Err(_) => false,
    }
}

/// Sets the clock, unless it stands later already, and tries the timers that are due: by due moment, then in the order of resources and blocks. One whose
/// resource has the places, where a cause number is left, is fired, and its EXPIRE is admitted; any other stays armed. Answers how many were admitted.
pub fn tick(program: &Program, running: &mut Running, now: u64) -> u32
    requires { IsGood program.now running.old }
    ensures step { Steps program.now running.old (Tick now) (Expired result) running.new }
    ensures good { IsGood program.now running.new }
{
    advance(program, running, now);
    running.timers.keeps_order();
    let mut fired = 0;
    let mut waiting = 0;
    while let Some(due) = running.timers.due_at(running.clock, waiting) {
        if expire(program, running, due.block) {
            fired += 1;
        } else {
            waiting += 1;
        }
    }
    fired
}
