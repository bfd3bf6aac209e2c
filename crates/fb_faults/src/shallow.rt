//! Why a queue is not deep enough.

ghost use Rattle.std.specs.Prelude.{◌≡◌};
ghost use Rattle.fb_faults.specs.declared.shallow.Shallow.TheVariants.{OutOfMemory};

use std::alloc::{AllocError, AllocFailed};

/// Why the depths of a certificate are refused.
#[derive(Drop)]
pub enum Shallow {
    /// Memory ran out. Code 9.
    OutOfMemory,
    /// The depth of the resource of this path, in upper case and its names joined by a dot, is less than the places of one of its arrivals,
    /// or than those of all its BEGIN together. Code 40.
    Depth(String),
}

impl Shallow {
    ghost use Rattle.fb_faults.specs.Depths.{code_of};

    /// The number of the refusal.
    pub fn code(&self) -> u8
        ensures { result ≡ code_of self.now }
    {
        match self {
            Shallow::OutOfMemory => 9,
            Shallow::Depth(_) => 40,
        }
    }
}

impl From<AllocError> for Shallow {
    ghost from_gives = { λ _ e. e ≡ OutOfMemory };

    fn from(_: AllocError) -> Shallow {
        Shallow::OutOfMemory
    }
}

impl<T: Drop> From<AllocFailed<T>> for Shallow {
    ghost from_gives = { λ _ e. e ≡ OutOfMemory };

    fn from(_: AllocFailed<T>) -> Shallow {
        Shallow::OutOfMemory
    }
}
