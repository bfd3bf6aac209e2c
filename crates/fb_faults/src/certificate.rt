//! Why a text is no certificate.

ghost use Rattle.std.specs.Prelude.{◌≡◌};
ghost use Rattle.fb_faults.specs.declared.certificate.CertFault.TheVariants as fault;

use std::alloc::{AllocError, AllocFailed};
use std::fmt;

/// Why a text is no certificate. Lines count from 1, lines without words among them.
#[derive(Drop)]
pub enum CertFault {
    /// Memory ran out. Code 9.
    OutOfMemory,
    /// The text has more than 16,777,216 bytes. Code 4.
    TooLong,
    /// The row in the line cannot stand there: the first is not `CERT 1`, its first word is none of a row, it has too few or too
    /// many words, one of them is no path or no number within bounds, or the least number of a range is above its greatest. It is
    /// line 1 if the text has no rows. Code 30.
    Row(usize),
    /// The row in the line is a second `CERT` or `REPEATS`, or names the path or the channel of an earlier row of its kind. Code 31.
    DuplicateRow(usize),
}

impl CertFault {
    ghost use Rattle.fb_faults.specs.Certificates.{code_of};

    /// The number of the refusal.
    pub fn code(&self) -> u8
        ensures { result ≡ code_of self.now }
    {
        match self {
            CertFault::OutOfMemory => 9,
            CertFault::TooLong => 4,
            CertFault::Row(_) => 30,
            CertFault::DuplicateRow(_) => 31,
        }
    }
}

/// The code, and the line where there is one.
impl fmt::Display for CertFault {
    ghost use Rattle.std.specs.Prelude.{Some};
    ghost use Rattle.fb_faults.specs.Certificates.{line_of};

    ghost output = { λ f. Some (line_of f) };

    fn fmt<W: fmt::Write>(&self, f: &mut fmt::Formatter<W>) -> fmt::Result {
        match self {
            CertFault::OutOfMemory => write!(f, "9"),
            CertFault::TooLong => write!(f, "4"),
            CertFault::Row(line) => write!(f, "30 {line}"),
            CertFault::DuplicateRow(line) => write!(f, "31 {line}"),
        }
    }
}

impl From<AllocError> for CertFault {
    ghost from_gives = { λ _ e. e ≡ fault.OutOfMemory };

    fn from(_: AllocError) -> CertFault {
        CertFault::OutOfMemory
    }
}

impl<T: Drop> From<AllocFailed<T>> for CertFault {
    ghost from_gives = { λ _ e. e ≡ fault.OutOfMemory };

    fn from(_: AllocFailed<T>) -> CertFault {
        CertFault::OutOfMemory
    }
}
