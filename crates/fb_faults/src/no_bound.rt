//! Why no certificate is found.

ghost use Rattle.std.specs.Prelude.{◌≡◌};
ghost use Rattle.fb_faults.specs.declared.no_bound.NoBound.TheVariants.{OutOfMemory};

use crate::place::Place;
use std::alloc::{AllocError, AllocFailed};
use std::fmt;

/// Why no certificate is found for a system. A path is in upper case, its names joined by dots.
#[derive(Drop)]
pub enum NoBound {
    /// Memory ran out. Code 9.
    OutOfMemory,
    /// These places are a closed walk of demands, so no certificate fits, whatever its ranges. Code 43.
    Cycle(Vec<Place>),
    /// Under the ranges that are found, this algorithm may leave one, or it or a guard of a transition that leaves this state may divide by 0 or
    /// index out of bounds. Code 44.
    NoRange(String),
    /// A number of a row of this resource, or the connections that are followed in it, pass their limit. Code 19.
    Limit(String),
}

impl NoBound {
    ghost use Rattle.fb_faults.specs.NoBounds.{code_of};

    /// The number of the refusal.
    pub fn code(&self) -> u8
        ensures { result ≡ code_of self.now }
    {
        match self {
            NoBound::OutOfMemory => 9,
            NoBound::Cycle(_) => 43,
            NoBound::NoRange(_) => 44,
            NoBound::Limit(_) => 19,
        }
    }
}

/// The code, and the place or places, where there are some.
impl fmt::Display for NoBound {
    ghost use Rattle.std.specs.Prelude.{Some};
    ghost use Rattle.fb_faults.specs.NoBounds.{line_of};

    ghost output = { λ f. Some (line_of f) };

    fn fmt<W: fmt::Write>(&self, f: &mut fmt::Formatter<W>) -> fmt::Result {
        match self {
            NoBound::OutOfMemory => write!(f, "9"),
            NoBound::Cycle(places) => {
                let walk = Walk(places.as_slice());
                write!(f, "43{walk}")
            }
            NoBound::NoRange(path) => write!(f, "44 {path}"),
            NoBound::Limit(resource) => write!(f, "19 {resource}"),
        }
    }
}

// Places, each behind a space.
#[derive(Clone, Copy)]
struct Walk<'a>(&'a [Place]);

impl fmt::Display for Walk<'_> {
    ghost use Rattle.std.specs.Prelude.{Some};
    ghost use Rattle.fb_faults.specs.NoBounds.{walk_text};

    ghost output = { λ w. Some (walk_text w.0.now) };

    fn fmt<W: fmt::Write>(&self, f: &mut fmt::Formatter<W>) -> fmt::Result {
        for place in self.0 {
            write!(f, " {place}")?;
        }
        Ok(())
    }
}

impl From<AllocError> for NoBound {
    ghost from_gives = { λ _ e. e ≡ OutOfMemory };

    fn from(_: AllocError) -> NoBound {
        NoBound::OutOfMemory
    }
}

impl<T: Drop> From<AllocFailed<T>> for NoBound {
    ghost from_gives = { λ _ e. e ≡ OutOfMemory };

    fn from(_: AllocFailed<T>) -> NoBound {
        NoBound::OutOfMemory
    }
}
