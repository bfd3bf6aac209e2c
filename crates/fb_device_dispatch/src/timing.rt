//! Timers after a dispatch.

ghost use Rattle.std.specs.Prelude.{◌≡◌, ◌<◌};
ghost use Rattle.fb_model.specs.Devices.{is_timer};
ghost use Rattle.fb_chart.specs.Views.{body_kind};
ghost use Rattle.fb_device_dispatch.specs.Rearming.{moment_in, IsRearmed, CanRetime, HasRetimed};

use fb_chart::{Body, Condition, Standing};
use fb_sched::Timers;
use fb_types_services::Service;

// The moment at which a timer that is armed is due.
fn moment(condition: Condition) -> Option<u64>
    ensures { result ≡ moment_in condition }
{
    match condition {
        Condition::Service(Standing::Armed(due)) => Some(due),
        _ => None,
    }
}

// Arms or disarms the timer of a block, by what the block remembers.
fn rearm(timers: &mut Timers, block: u16, now: Condition)
    requires { block < timers.old.room }
    ensures armed { IsRearmed timers.old block now timers.new }
    ensures room { timers.new.room ≡ timers.old.room }
{
    timers.keeps_order();
    timers.disarm(block);
    match moment(now) {
        Some(due) => timers.arm(block, due),
        None => {}
    }
}

// Whether a block is a timer.
fn is_timer(body: &Body) -> bool
    ensures { result ≡ is_timer (body_kind body.now) }
{
    match body {
        Body::Served(Service::Delay) => true,
        Body::Served(Service::Cycle) => true,
        _ => false,
    }
}

/// Arms or disarms the timer of a block, if it is one, by what the block remembers.
pub(crate) fn retime(timers: &mut Timers, body: &Body, block: u16, now: Condition)
    requires { CanRetime (is_timer (body_kind body.now)) timers.old block }
    ensures timed { HasRetimed (is_timer (body_kind body.now)) timers.old block now timers.new }
    ensures room { timers.new.room ≡ timers.old.room }
{
    timers.keeps_order();
    if is_timer(body) {
        rearm(timers, block, now);
    }
}
