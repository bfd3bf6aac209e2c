//! The time since a device began to take turns.

ghost use Rattle.std.specs.Prelude.{◌≡◌, ℕ, IfErr, IfOk};
ghost use Rattle.fbr_notices.specs.declared.stop.Stop.TheVariants as stops;

use fbr_notices::Stop;
use std::rt::Clock;
use std::time::Instant;

/// A clock that counts from a start on, and tells what it does as links do.
pub(crate) trait Timer {
    /// That a look at it tells so many milliseconds. One that tells nothing allows all.
    ghost tells: { Self → ℕ → Self → Type 0 } = { λ _ _ _. Unit {0} };

    /// The milliseconds since the start; or that the clock cannot be read.
    fn since(&mut self) -> Result<u64, Stop>
        ensures told { IfOk result (λ now. tells self.old now self.new) }
        ensures failed { IfErr result (λ stop. stop ≡ stops.Clock) };
}

/// The system's clock, which starts at the first look at it. What it tells is outside any contract.
#[derive(Drop)]
pub(crate) struct SystemTimer<'r, R> {
    rt: &'r R,
    start: Option<Instant>,
}

impl<'r, R: Clock> SystemTimer<'r, R> {
    /// That clock, before its start.
    pub(crate) fn of(rt: &'r R) -> SystemTimer<'r, R> {
        SystemTimer { rt, start: None }
    }
}

impl<R: Clock> Timer for SystemTimer<'_, R> {
    fn since(&mut self) -> Result<u64, Stop> {
        let Ok(now) = Instant::now(self.rt) else {
            return Err(Stop::Clock);
        };
        match self.start {
            Some(start) => {
                Ok(u64::try_from(now.duration_since(start).as_millis()).unwrap_or(u64::MAX))
            }
            None => {
                self.start = Some(now);
                Ok(0)
            }
        }
    }
}
