//! Why rows of variables do not fit.

ghost use Rattle.std.specs.Prelude.{◌≡◌};
ghost use Rattle.fb_faults.specs.declared.unclear.Unclear.TheVariants.{OutOfMemory};

use std::alloc::{AllocError, AllocFailed};

/// Why rows of variables do not fit. A path is in upper case, its names joined by dots.
#[derive(Drop)]
pub enum Unclear {
    /// Memory ran out. Code 9.
    OutOfMemory,
    /// The row of this variable is not within its type, or the variable's start value is outside it; of an input that always holds a
    /// constant, that constant. Code 34.
    Start(String),
    /// The range of what this connected input takes is not within the input's row. Code 35.
    Link(String),
    /// This algorithm may leave a row. Code 36.
    Kept(String),
    /// This algorithm, or a guard of a transition that leaves this state, may divide by 0 or index out of bounds. Code 37.
    IndexOrDivisor(String),
}

impl Unclear {
    ghost use Rattle.fb_faults.specs.Ranges.{code_of};

    /// The number of the refusal.
    pub fn code(&self) -> u8
        ensures { result ≡ code_of self.now }
    {
        match self {
            Unclear::OutOfMemory => 9,
            Unclear::Start(_) => 34,
            Unclear::Link(_) => 35,
            Unclear::Kept(_) => 36,
            Unclear::IndexOrDivisor(_) => 37,
        }
    }
}

impl From<AllocError> for Unclear {
    ghost from_gives = { λ _ e. e ≡ OutOfMemory };

    fn from(_: AllocError) -> Unclear {
        Unclear::OutOfMemory
    }
}

impl<T: Drop> From<AllocFailed<T>> for Unclear {
    ghost from_gives = { λ _ e. e ≡ OutOfMemory };

    fn from(_: AllocFailed<T>) -> Unclear {
        Unclear::OutOfMemory
    }
}
