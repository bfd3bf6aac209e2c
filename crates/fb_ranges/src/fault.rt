//! Why a guard or an algorithm is not clear.

ghost use Rattle.std.specs.Prelude.{◌≡◌};

use std::fmt;

/// Why a guard or an algorithm is not clear under the ranges of its variables.
#[derive(Drop)]
pub enum RangeFault {
    /// A variable may leave its row: after the algorithm, before a FOR that assigns it, or after one of its iterations; or an element of an
    /// array may get a value beyond the array's row. Code 36.
    Leaves,
    /// A divisor may be zero, or an index out of bounds. Code 37.
    Traps,
    /// Memory ran out. Code 9.
    OutOfMemory,
}

impl RangeFault {
    ghost use Rattle.fb_ranges.specs.Faults.{code_of};

    /// The number of the refusal.
    pub fn code(&self) -> u8
        ensures { result ≡ code_of self.now }
    {
        match self {
            RangeFault::Leaves => 36,
            RangeFault::Traps => 37,
            RangeFault::OutOfMemory => 9,
        }
    }
}

/// The code.
impl fmt::Display for RangeFault {
    ghost use Rattle.std.specs.Prelude.{Some};
    ghost use Rattle.fb_ranges.specs.Faults.{line_of};

    ghost output = { λ f. Some (line_of f) };

    fn fmt<W: fmt::Write>(&self, f: &mut fmt::Formatter<W>) -> fmt::Result {
        match self {
            RangeFault::Leaves => write!(f, "36"),
            RangeFault::Traps => write!(f, "37"),
            RangeFault::OutOfMemory => write!(f, "9"),
        }
    }
}
