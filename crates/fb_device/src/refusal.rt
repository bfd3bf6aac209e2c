//! Why a device is not loaded.

ghost use Rattle.std.specs.Prelude.{◌≡◌};

use std::alloc::{AllocError, AllocFailed};
use std::fmt;

/// Why an application, its certificate and the name of a device are refused.
#[derive(Drop)]
pub enum Refusal {
    /// The application or its certificate is refused, or memory ran out. Codes 1 to 20 and 30 to 40.
    Checked(fb_faults::Refusal),
    /// The system has no device of this name, in upper case. Code 21.
    NoDevice(String),
    /// The first cause number is above 18446744073709535000, or the first sequence number is 0. Code 19, without a place.
    Limit,
}

impl Refusal {
    ghost use Rattle.fb_device.specs.Refusals.{code_of};

    /// The number of the refusal.
    pub fn code(&self) -> u8
        ensures { result ≡ code_of self.now }
    {
        match self {
            Refusal::Checked(refusal) => refusal.code(),
            Refusal::NoDevice(_) => 21,
            Refusal::Limit => 19,
        }
    }
}

/// The code and the place, where there is one.
impl fmt::Display for Refusal {
    ghost use Rattle.std.specs.Prelude.{Some};
    ghost use Rattle.fb_device.specs.Refusals.{line_of};

    ghost output = { λ f. Some (line_of f) };

    fn fmt<W: fmt::Write>(&self, f: &mut fmt::Formatter<W>) -> fmt::Result {
        match self {
            Refusal::Checked(refusal) => write!(f, "{refusal}"),
            Refusal::NoDevice(name) => write!(f, "21 {name}"),
            Refusal::Limit => write!(f, "19"),
        }
    }
}

impl From<AllocError> for Refusal {
    ghost use Rattle.fb_device.specs.Refusals.{no_memory};

    ghost from_gives = { λ _ e. e ≡ no_memory };

    fn from(_: AllocError) -> Refusal {
        Refusal::Checked(fb_faults::Refusal::OutOfMemory)
    }
}

impl<T: Drop> From<AllocFailed<T>> for Refusal {
    ghost use Rattle.fb_device.specs.Refusals.{no_memory};

    ghost from_gives = { λ _ e. e ≡ no_memory };

    fn from(_: AllocFailed<T>) -> Refusal {
        Refusal::Checked(fb_faults::Refusal::OutOfMemory)
    }
}
