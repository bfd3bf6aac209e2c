//! Why the rows of a certificate are not those that a system must have.

ghost use Rattle.std.specs.Prelude.{◌≡◌};
ghost use Rattle.fb_faults.specs.declared.row.RowFault.TheVariants.{OutOfMemory};

use std::alloc::{AllocError, AllocFailed};

/// Why the rows of a certificate are refused. A row goes by its path as it is written: in upper case, its names joined by dots.
#[derive(Drop)]
pub enum RowFault {
    /// Memory ran out. Code 9.
    OutOfMemory,
    /// The certificate has a row of this path that the system must not have: `CHARGE D.R.C.NOWHERE 0 0`, where the block of `D.R.C` has no
    /// state `NOWHERE`. Code 32.
    Unknown(String),
    /// The system must have a row of this path, and the certificate has none: no `DEPTH D.R` for the resource `R` of the device `D`.
    /// Code 33.
    Missing(String),
    /// The certificate has a row of this channel, and must not: no PUBLISH or SUBSCRIBE of the system names it, or there is no row `REPEATS`.
    /// Code 32.
    UnknownChannel(u16),
    /// A PUBLISH or SUBSCRIBE of the system names this channel, and the certificate has a row `REPEATS` and none of the channel. Code 33.
    MissingChannel(u16),
}

impl RowFault {
    ghost use Rattle.fb_faults.specs.Rows.{code_of};

    /// The number of the refusal.
    pub fn code(&self) -> u8
        ensures { result ≡ code_of self.now }
    {
        match self {
            RowFault::OutOfMemory => 9,
            RowFault::Unknown(_) | RowFault::UnknownChannel(_) => 32,
            RowFault::Missing(_) | RowFault::MissingChannel(_) => 33,
        }
    }
}

impl From<AllocError> for RowFault {
    ghost from_gives = { λ _ e. e ≡ OutOfMemory };

    fn from(_: AllocError) -> RowFault {
        RowFault::OutOfMemory
    }
}

impl<T: Drop> From<AllocFailed<T>> for RowFault {
    ghost from_gives = { λ _ e. e ≡ OutOfMemory };

    fn from(_: AllocFailed<T>) -> RowFault {
        RowFault::OutOfMemory
    }
}
