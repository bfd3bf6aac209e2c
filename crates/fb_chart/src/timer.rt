//! E_DELAY and E_CYCLE: IEC 61499-1 edition 2, annex A, this project's profile.

ghost use Rattle.std.specs.Prelude.{◌≡◌, ◌<◌, ℤ, List, None, Some, IfSome, if◌then◌else◌};
ghost use Rattle.fb_model.specs.Names.{Name};
ghost use Rattle.fb_model.specs.Values.{Values};
ghost use Rattle.fb_model.specs.System.{Delay, Cycle};
ghost use Rattle.fb_model.specs.Services.{dt};
ghost use Rattle.fb_model.specs.Serving.{wait, due_after, is_quiet, is_fired};
ghost use Rattle.st_exec.specs.Cells.{values_of};
ghost use Rattle.st_exec.specs.Kept.{plain_slot_of};
ghost use Rattle.fb_chart.specs.Responses.{condition_of, Replies};

use crate::Store;
use crate::standing::{Response, Standing, silent};

// How long a timer waits: a negative time is none.
fn waiting(own: &Store, time: usize) -> u64
    ensures { (x : Name) → plain_slot_of own.now x ≡ time → result ≡ wait (values_of own.now x) }
{
    let number = own.number(time);
    if number < 0 { 0 } else { number as u64 }
}

// A timer that is due after this time; no moment is later than the last.
fn armed(clock: u64, time: u64) -> Standing
    ensures { condition_of result ≡ due_after clock time }
{
    Standing::Armed(clock.saturating_add(time))
}

// START arms a timer that does not run.
fn started(clock: u64, time: u64, standing: Standing) -> Standing
    ensures { condition_of result ≡ (if is_quiet (condition_of standing) then due_after clock time else condition_of standing) }
{
    match standing {
        Standing::Quiet => armed(clock, time),
        _ => standing,
    }
}

// EXPIRE of a timer that has fired emits EO.
fn expired(standing: Standing, next: Standing) -> Response
    ensures { result ≡ (if is_fired (condition_of standing) then record { standing = next; output = Some 0; effect = None } else record { standing = standing; output = None; effect = None }) }
{
    match standing {
        Standing::Fired => Response {
            standing: next,
            output: Some(0),
            effect: None,
        },
        _ => silent(standing),
    }
}

/// E_DELAY: START, STOP and EXPIRE.
pub(crate) fn delay(
    time: usize,
    event: u16,
    clock: u64,
    standing: Standing,
    own: &Store,
) -> Response
    requires { time ≡ plain_slot_of own.now dt }
    ensures output { IfSome result.output (λ k. k < 1) }
    ensures reply { (values : List ℤ) (issued : Values) → Replies Delay clock event values (values_of own.now) (values_of own.now) issued standing result }
{
    match event {
        0 => silent(started(clock, waiting(own, time), standing)),
        1 => silent(Standing::Quiet),
        2 => expired(standing, Standing::Quiet),
        _ => silent(standing),
    }
}

/// E_CYCLE: START, STOP and EXPIRE, which arms it anew. It waits for 1 at least.
pub(crate) fn cycle(
    time: usize,
    event: u16,
    clock: u64,
    standing: Standing,
    own: &Store,
) -> Response
    requires { time ≡ plain_slot_of own.now dt }
    ensures output { IfSome result.output (λ k. k < 1) }
    ensures reply { (values : List ℤ) (issued : Values) → Replies Cycle clock event values (values_of own.now) (values_of own.now) issued standing result }
{
    let period = waiting(own, time).max(1);
    match event {
        0 => silent(started(clock, period, standing)),
        1 => silent(Standing::Quiet),
        2 => expired(standing, armed(clock, period)),
        _ => silent(standing),
    }
}
