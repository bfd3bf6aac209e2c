//! Why something cannot be watched.

use fbr_names::Fault;
use std::alloc::{AllocError, AllocFailed};
use std::io::Write;

/// Why patterns cannot be watched.
#[derive(Drop)]
pub enum Unwatched {
    /// Memory ran out.
    Memory,
    /// The pattern of this place among those that were given names nothing, and what people are told of it, with the nearest name that there is.
    Pattern(usize, Vec<u8>),
}

impl From<AllocError> for Unwatched {
    fn from(_: AllocError) -> Unwatched {
        Unwatched::Memory
    }
}

impl<T: Drop> From<AllocFailed<T>> for Unwatched {
    fn from(_: AllocFailed<T>) -> Unwatched {
        Unwatched::Memory
    }
}

impl From<Fault> for Unwatched {
    fn from(fault: Fault) -> Unwatched {
        match fault {
            Fault::Memory => Unwatched::Memory,
            Fault::At(place, text) => Unwatched::Pattern(place, text),
        }
    }
}

impl Unwatched {
    /// Tells people why something cannot be watched, if it is not for want of memory. Answers whether it told them.
    pub fn tell<E: Write>(&self, errors: &mut E) -> bool {
        match self {
            Unwatched::Memory => false,
            Unwatched::Pattern(_, text) => {
                let _ = errors.write_all(b"fbr: ");
                let _ = errors.write_all(text);
                let _ = errors.write_all(b"\n");
                true
            }
        }
    }
}
