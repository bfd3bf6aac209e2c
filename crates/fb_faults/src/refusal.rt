//! Why a text and a certificate are refused.

ghost use Rattle.std.specs.Prelude.{◌≡◌};
ghost use Rattle.fb_faults.specs.declared.refusal.Refusal.TheVariants.{OutOfMemory};

use crate::certificate::CertFault;
use crate::row::RowFault;
use crate::shallow::Shallow;
use crate::shortfall::Shortfall;
use crate::text::TextFault;
use crate::typing::TypeFault;
use crate::unclear::Unclear;
use std::alloc::{AllocError, AllocFailed};
use std::fmt;

/// Why an application and its certificate are refused. A path is in upper case, its names joined by dots.
#[derive(Drop)]
pub enum Refusal {
    /// Memory ran out. Code 9.
    OutOfMemory,
    /// The application's text is refused. Codes 1 to 5.
    Text(TextFault),
    /// The application is not well typed, or above a limit. Codes 10 to 20.
    Typing(TypeFault),
    /// The certificate's text is refused. Codes 4, 30 and 31.
    Certificate(CertFault),
    /// The certificate has a row for this path, and the system has no such place. Code 32.
    UnknownRow(String),
    /// The system has this place, and the certificate has no row for it. Code 33.
    MissingRow(String),
    /// The certificate has a row for this channel, and no PUBLISH or SUBSCRIBE of the system names it, or there is no row REPEATS. Code 32.
    UnknownChannel(u16),
    /// A PUBLISH or SUBSCRIBE of the system names this channel, and the certificate has a row REPEATS and none for the channel. Code 33.
    MissingChannel(u16),
    /// The row of this variable is not within its type, or its start value, or the constant that it always holds, is not in its row. Code 34.
    RangeStart(String),
    /// What this input takes may be outside its row. Code 35.
    RangeLink(String),
    /// This algorithm may take a variable out of its row. Code 36.
    RangeKept(String),
    /// The algorithm of this path, or a guard of a transition that leaves the state of this path, may divide by 0 or index out of bounds. Code 37.
    IndexOrDivisor(String),
    /// The charge of this state is less than its actions and the free transitions from it need. Code 38.
    Charge(String),
    /// The weight of this event input or arrival is less than what it can cause. Code 39.
    Weight(String),
    /// The depth of this resource is less than the places of one of its arrivals, or than those of all its BEGIN together. Code 40.
    Depth(String),
    /// With a row REPEATS: the FAR of this event input or arrival, or the FARSTATE of this state, is less than what it can cause on all devices. Code 41.
    Far(String),
    /// With a row REPEATS: the number of this channel is less than what its datagrams can cause at all SUBSCRIBE of it. Code 42.
    Channel(u16),
}

impl Refusal {
    ghost use Rattle.fb_faults.specs.Refusals.{code_of};

    /// The number of the refusal.
    pub fn code(&self) -> u8
        ensures { result ≡ code_of self.now }
    {
        match self {
            Refusal::OutOfMemory => 9,
            Refusal::Text(fault) => fault.code(),
            Refusal::Typing(fault) => fault.code(),
            Refusal::Certificate(fault) => fault.code(),
            Refusal::UnknownRow(_) | Refusal::UnknownChannel(_) => 32,
            Refusal::MissingRow(_) | Refusal::MissingChannel(_) => 33,
            Refusal::RangeStart(_) => 34,
            Refusal::RangeLink(_) => 35,
            Refusal::RangeKept(_) => 36,
            Refusal::IndexOrDivisor(_) => 37,
            Refusal::Charge(_) => 38,
            Refusal::Weight(_) => 39,
            Refusal::Depth(_) => 40,
            Refusal::Far(_) => 41,
            Refusal::Channel(_) => 42,
        }
    }
}

/// The code and the place, where there is one.
impl fmt::Display for Refusal {
    ghost use Rattle.std.specs.Prelude.{Some};
    ghost use Rattle.fb_faults.specs.Refusals.{line_of};

    ghost output = { λ f. Some (line_of f) };

    fn fmt<W: fmt::Write>(&self, f: &mut fmt::Formatter<W>) -> fmt::Result {
        match self {
            Refusal::OutOfMemory => write!(f, "9"),
            Refusal::Text(fault) => write!(f, "{fault}"),
            Refusal::Typing(fault) => write!(f, "{fault}"),
            Refusal::Certificate(fault) => write!(f, "{fault}"),
            Refusal::UnknownRow(path) => write!(f, "32 {path}"),
            Refusal::MissingRow(path) => write!(f, "33 {path}"),
            Refusal::UnknownChannel(number) => write!(f, "32 {number}"),
            Refusal::MissingChannel(number) => write!(f, "33 {number}"),
            Refusal::RangeStart(path) => write!(f, "34 {path}"),
            Refusal::RangeLink(path) => write!(f, "35 {path}"),
            Refusal::RangeKept(path) => write!(f, "36 {path}"),
            Refusal::IndexOrDivisor(path) => write!(f, "37 {path}"),
            Refusal::Charge(path) => write!(f, "38 {path}"),
            Refusal::Weight(path) => write!(f, "39 {path}"),
            Refusal::Depth(path) => write!(f, "40 {path}"),
            Refusal::Far(path) => write!(f, "41 {path}"),
            Refusal::Channel(number) => write!(f, "42 {number}"),
        }
    }
}

impl From<AllocError> for Refusal {
    ghost from_gives = { λ _ e. e ≡ OutOfMemory };

    fn from(_: AllocError) -> Refusal {
        Refusal::OutOfMemory
    }
}

impl<T: Drop> From<AllocFailed<T>> for Refusal {
    ghost from_gives = { λ _ e. e ≡ OutOfMemory };

    fn from(_: AllocFailed<T>) -> Refusal {
        Refusal::OutOfMemory
    }
}

/// Want of memory is one refusal, wherever it was met.
impl From<TextFault> for Refusal {
    ghost use Rattle.std.specs.Prelude.{◌≡◌};
    ghost use Rattle.fb_faults.specs.Refusals.{of_text};

    ghost from_gives = { λ f r. r ≡ of_text f };

    fn from(fault: TextFault) -> Refusal {
        match fault {
            TextFault::OutOfMemory => Refusal::OutOfMemory,
            other => Refusal::Text(other),
        }
    }
}

/// Want of memory is one refusal, wherever it was met.
impl From<TypeFault> for Refusal {
    ghost use Rattle.std.specs.Prelude.{◌≡◌};
    ghost use Rattle.fb_faults.specs.Refusals.{of_type};

    ghost from_gives = { λ f r. r ≡ of_type f };

    fn from(fault: TypeFault) -> Refusal {
        match fault {
            TypeFault::OutOfMemory => Refusal::OutOfMemory,
            other => Refusal::Typing(other),
        }
    }
}

/// Want of memory is one refusal, wherever it was met.
impl From<CertFault> for Refusal {
    ghost use Rattle.std.specs.Prelude.{◌≡◌};
    ghost use Rattle.fb_faults.specs.Refusals.{of_certificate};

    ghost from_gives = { λ f r. r ≡ of_certificate f };

    fn from(fault: CertFault) -> Refusal {
        match fault {
            CertFault::OutOfMemory => Refusal::OutOfMemory,
            other => Refusal::Certificate(other),
        }
    }
}

/// A row that is not known, or that is missing, is told with its path or its number.
impl From<RowFault> for Refusal {
    ghost use Rattle.std.specs.Prelude.{◌≡◌};
    ghost use Rattle.fb_faults.specs.Refusals.{of_row};

    ghost from_gives = { λ f r. r ≡ of_row f };

    fn from(fault: RowFault) -> Refusal {
        match fault {
            RowFault::OutOfMemory => Refusal::OutOfMemory,
            RowFault::Unknown(path) => Refusal::UnknownRow(path),
            RowFault::Missing(path) => Refusal::MissingRow(path),
            RowFault::UnknownChannel(number) => Refusal::UnknownChannel(number),
            RowFault::MissingChannel(number) => Refusal::MissingChannel(number),
        }
    }
}

/// A row that is not clear is told with the path of the variable, the algorithm or the state.
impl From<Unclear> for Refusal {
    ghost use Rattle.std.specs.Prelude.{◌≡◌};
    ghost use Rattle.fb_faults.specs.Refusals.{of_unclear};

    ghost from_gives = { λ f r. r ≡ of_unclear f };

    fn from(fault: Unclear) -> Refusal {
        match fault {
            Unclear::OutOfMemory => Refusal::OutOfMemory,
            Unclear::Start(path) => Refusal::RangeStart(path),
            Unclear::Link(path) => Refusal::RangeLink(path),
            Unclear::Kept(path) => Refusal::RangeKept(path),
            Unclear::IndexOrDivisor(path) => Refusal::IndexOrDivisor(path),
        }
    }
}

/// A row that does not pay is told with its path or its number.
impl From<Shortfall> for Refusal {
    ghost use Rattle.std.specs.Prelude.{◌≡◌};
    ghost use Rattle.fb_faults.specs.Refusals.{of_shortfall};

    ghost from_gives = { λ f r. r ≡ of_shortfall f };

    fn from(fault: Shortfall) -> Refusal {
        match fault {
            Shortfall::OutOfMemory => Refusal::OutOfMemory,
            Shortfall::Charge(path) => Refusal::Charge(path),
            Shortfall::Weight(path) => Refusal::Weight(path),
            Shortfall::Channel(number) => Refusal::Channel(number),
        }
    }
}

/// A queue that is not deep enough is told with its resource's path.
impl From<Shallow> for Refusal {
    ghost use Rattle.std.specs.Prelude.{◌≡◌};
    ghost use Rattle.fb_faults.specs.Refusals.{of_shallow};

    ghost from_gives = { λ f r. r ≡ of_shallow f };

    fn from(fault: Shallow) -> Refusal {
        match fault {
            Shallow::OutOfMemory => Refusal::OutOfMemory,
            Shallow::Depth(path) => Refusal::Depth(path),
        }
    }
}
