//! The faults of the program, and how each is told.

ghost use Rattle.std.specs.Prelude.{◌≡◌, ◌≤◌};
ghost use Rattle.fbr_files.specs.Statuses.{status_of_code, status_of_no_bound};

use fb_faults::{NoBound, Refusal};
use std::alloc::AllocError;
use std::fmt;

/// Why a command was refused.
#[derive(Drop)]
pub enum Fault<'a> {
    /// Memory ran out. Code 9, status 4.
    Memory,
    /// Standard input could not be read, is no UTF-8, or has more than 33,554,432 bytes. Code 61, status 3.
    Input,
    /// The same of the file of this name. Code 61, status 3.
    File(&'a str),
    /// The line of this number in a script, counted from 1, is of another form, or its device or resource is unknown. Code 60, status 2.
    Line(usize),
    /// The words are no command. Code 63, status 2.
    Usage,
    /// The checker refused. Status 1 where the certificate does not fit, status 2 where a text is at fault.
    Refused(Refusal),
    /// The finder has no certificate of the system. Status 1, or 4 where memory ran out.
    Unbound(NoBound),
    /// The system has no device of this name, in upper case. Code 21, status 2.
    Device(String),
    /// A receive failed. Code 59, status 3.
    LinkDown,
    /// No socket could be bound to this port. Code 62, status 3.
    Socket(u16),
}

impl Fault<'_> {
    ghost use Rattle.fbr_files.specs.Outcomes.{code_of, status_of};

    /// The number of the fault.
    pub fn code(&self) -> u8
        ensures { result ≡ code_of self.now }
    {
        match self {
            Fault::Memory => 9,
            Fault::Input | Fault::File(_) => 61,
            Fault::Line(_) => 60,
            Fault::Usage => 63,
            Fault::Refused(refusal) => refusal.code(),
            Fault::Unbound(fault) => fault.code(),
            Fault::Device(_) => 21,
            Fault::LinkDown => 59,
            Fault::Socket(_) => 62,
        }
    }

    /// The status that the program ends with.
    pub fn status(&self) -> u8
        ensures said { result ≡ status_of self.now }
        ensures most { result ≤ 4 }
    {
        match self {
            Fault::Memory => 4,
            Fault::Input | Fault::File(_) => 3,
            Fault::Line(_) => 2,
            Fault::Usage => 2,
            Fault::Refused(refusal) => status_of_code(refusal.code()),
            Fault::Unbound(fault) => status_of_no_bound(fault.code()),
            Fault::Device(_) => 2,
            Fault::LinkDown | Fault::Socket(_) => 3,
        }
    }
}

// A certificate that does not fit is 1, want of memory is 4, and a text that is at fault is 2.
fn status_of_code(code: u8) -> u8
    ensures said { result ≡ status_of_code code }
    ensures most { result ≤ 4 }
{
    if code >= 32 && code <= 44 {
        1
    } else if code == 9 {
        4
    } else {
        2
    }
}

// Want of memory is 4, and a system without a certificate is 1.
fn status_of_no_bound(code: u8) -> u8
    ensures said { result ≡ status_of_no_bound code }
    ensures most { result ≤ 4 }
{
    if code == 9 { 4 } else { 1 }
}

/// The line that tells the fault: `refused`, its code, and its place where there is one.
impl fmt::Display for Fault<'_> {
    ghost use Rattle.std.specs.Prelude.{Some};
    ghost use Rattle.fbr_files.specs.Outcomes.{line_of};

    ghost output = { λ f. Some (line_of f) };

    fn fmt<W: fmt::Write>(&self, f: &mut fmt::Formatter<W>) -> fmt::Result {
        match self {
            Fault::Memory => write!(f, "refused 9"),
            Fault::Input => write!(f, "refused 61 -"),
            Fault::File(name) => {
                let name: &str = name;
                write!(f, "refused 61 {name}")
            }
            Fault::Line(number) => write!(f, "refused 60 {number}"),
            Fault::Usage => write!(f, "refused 63"),
            Fault::Refused(refusal) => write!(f, "refused {refusal}"),
            Fault::Unbound(fault) => write!(f, "refused {fault}"),
            Fault::Device(name) => write!(f, "refused 21 {name}"),
            Fault::LinkDown => write!(f, "refused 59"),
            Fault::Socket(port) => write!(f, "refused 62 {port}"),
        }
    }
}

impl From<AllocError> for Fault<'_> {
    fn from(_: AllocError) -> Self {
        Fault::Memory
    }
}
