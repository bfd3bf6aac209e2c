//! Why no work is told.

ghost use Rattle.std.specs.Prelude.{◌≡◌};
ghost use Rattle.fb_work.specs.declared.refusal.NoWork.TheVariants.{OutOfMemory};
ghost use Rattle.fb_work.specs.Algorithms.{IsToldBy};

use fb_faults::NoBound;
use std::alloc::AllocError;

/// Why no work is told of a verified system.
#[derive(Clone, Copy)]
pub enum NoWork {
    OutOfMemory,
    /// An algorithm, a state or an event costs more than 1,000,000,000,000.
    TooMuch,
}

impl From<AllocError> for NoWork {
    ghost from_gives = { λ _ e. e ≡ OutOfMemory };

    fn from(_: AllocError) -> NoWork {
        NoWork::OutOfMemory
    }
}

/// Why there are no least numbers: where demands go in no circle, memory ran out, or one is past the limit.
pub(crate) fn past(fault: NoBound) -> NoWork
    ensures { IsToldBy fault result }
{
    match fault {
        NoBound::OutOfMemory => NoWork::OutOfMemory,
        NoBound::Cycle(_) | NoBound::NoRange(_) | NoBound::Limit(_) => NoWork::TooMuch,
    }
}
