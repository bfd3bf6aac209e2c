//! Why a text is refused.

ghost use Rattle.std.specs.Prelude.{◌≡◌};
ghost use Rattle.fb_faults.specs.declared.text.TextFault.TheVariants.{OutOfMemory};

use std::alloc::{AllocError, AllocFailed};
use std::fmt;

/// Why a text is no application. An offset is in bytes from the text's beginning.
#[derive(Drop)]
pub enum TextFault {
    /// Memory ran out. Code 9.
    OutOfMemory,
    /// No token begins with the character at the offset, or the comment that begins there is not closed. Code 1.
    BadCharacter(usize),
    /// The token at the offset cannot stand there, or the text ends there too soon. Code 2.
    Syntax(usize),
    /// The token at the offset opens one nesting too many. Code 3.
    TooDeep(usize),
    /// The text has more than 1,048,576 bytes. Code 4.
    TooLong,
    /// The number at the offset is above 18446744073709551615, or a TIME above 9223372036854775807 milliseconds. Code 5.
    BigNumber(usize),
}

impl TextFault {
    ghost use Rattle.fb_faults.specs.Texts.{code_of};

    /// The number of the refusal.
    pub fn code(&self) -> u8
        ensures { result ≡ code_of self.now }
    {
        match self {
            TextFault::OutOfMemory => 9,
            TextFault::BadCharacter(_) => 1,
            TextFault::Syntax(_) => 2,
            TextFault::TooDeep(_) => 3,
            TextFault::TooLong => 4,
            TextFault::BigNumber(_) => 5,
        }
    }
}

/// The code, and the offset where there is one.
impl fmt::Display for TextFault {
    ghost use Rattle.std.specs.Prelude.{Some};
    ghost use Rattle.fb_faults.specs.Texts.{line_of};

    ghost output = { λ f. Some (line_of f) };

    fn fmt<W: fmt::Write>(&self, f: &mut fmt::Formatter<W>) -> fmt::Result {
        match self {
            TextFault::OutOfMemory => write!(f, "9"),
            TextFault::BadCharacter(offset) => write!(f, "1 {offset}"),
            TextFault::Syntax(offset) => write!(f, "2 {offset}"),
            TextFault::TooDeep(offset) => write!(f, "3 {offset}"),
            TextFault::TooLong => write!(f, "4"),
            TextFault::BigNumber(offset) => write!(f, "5 {offset}"),
        }
    }
}

impl From<AllocError> for TextFault {
    ghost from_gives = { λ _ e. e ≡ OutOfMemory };

    fn from(_: AllocError) -> TextFault {
        TextFault::OutOfMemory
    }
}

impl<T: Drop> From<AllocFailed<T>> for TextFault {
    ghost from_gives = { λ _ e. e ≡ OutOfMemory };

    fn from(_: AllocFailed<T>) -> TextFault {
        TextFault::OutOfMemory
    }
}
