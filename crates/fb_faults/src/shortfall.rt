//! Why the rows of a certificate do not pay.

ghost use Rattle.std.specs.Prelude.{◌≡◌};
ghost use Rattle.fb_faults.specs.declared.shortfall.Shortfall.TheVariants.{OutOfMemory};

use std::alloc::{AllocError, AllocFailed};

/// Why the rows of a certificate do not pay. A row goes by its path: in upper case, its names joined by dots.
#[derive(Drop)]
pub enum Shortfall {
    /// Memory ran out. Code 9.
    OutOfMemory,
    /// The charge of this state is less than its actions and the free transitions from it need. Code 38.
    Charge(String),
    /// The weight of this event input or arrival is less than what it can cause. Code 39.
    Weight(String),
    /// The number of this channel is less than what a datagram costs at all its SUBSCRIBE. Code 42.
    Channel(u16),
}

impl Shortfall {
    ghost use Rattle.fb_faults.specs.Columns.{code_of};

    /// The number of the refusal.
    pub fn code(&self) -> u8
        ensures { result ≡ code_of self.now }
    {
        match self {
            Shortfall::OutOfMemory => 9,
            Shortfall::Charge(_) => 38,
            Shortfall::Weight(_) => 39,
            Shortfall::Channel(_) => 42,
        }
    }
}

impl From<crate::memory::OutOfMemory> for Shortfall {
    ghost from_gives = { λ _ e. e ≡ OutOfMemory };

    fn from(_: crate::memory::OutOfMemory) -> Shortfall {
        Shortfall::OutOfMemory
    }
}

impl From<AllocError> for Shortfall {
    ghost from_gives = { λ _ e. e ≡ OutOfMemory };

    fn from(_: AllocError) -> Shortfall {
        Shortfall::OutOfMemory
    }
}

impl<T: Drop> From<AllocFailed<T>> for Shortfall {
    ghost from_gives = { λ _ e. e ≡ OutOfMemory };

    fn from(_: AllocFailed<T>) -> Shortfall {
        Shortfall::OutOfMemory
    }
}
