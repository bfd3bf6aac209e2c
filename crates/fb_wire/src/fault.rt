//! Why bytes are no message.

ghost use Rattle.std.specs.Prelude.{◌≡◌};

use std::fmt;

/// What is at fault with the first field of a datagram that is not whole or not right. Code 55.
#[derive(Clone, Copy)]
pub enum WireFault {
    /// The field is not whole.
    Short,
    /// The first two bytes are not `FB`.
    Magic,
    /// The version is neither 1 nor 2.
    Version,
    /// The message is for neither a channel nor an INPUT, or is of version 2 and for an INPUT.
    Kind,
    /// More than 16 values are announced.
    Count,
    /// No type has this code.
    TypeCode,
    /// The value is not in its type.
    Value,
    /// Something follows the last value.
    Trailing,
}

impl WireFault {
    /// The number of the refusal.
    pub fn code(&self) -> u8
        ensures { result ≡ 55 }
    {
        55
    }
}

/// The code, and which fault it is.
impl fmt::Display for WireFault {
    ghost use Rattle.std.specs.Prelude.{Some};
    ghost use Rattle.fb_wire.specs.Faults.{line_of};

    ghost output = { λ f. Some (line_of f) };

    fn fmt<W: fmt::Write>(&self, f: &mut fmt::Formatter<W>) -> fmt::Result {
        match self {
            WireFault::Short => write!(f, "55 Short"),
            WireFault::Magic => write!(f, "55 Magic"),
            WireFault::Version => write!(f, "55 Version"),
            WireFault::Kind => write!(f, "55 Kind"),
            WireFault::Count => write!(f, "55 Count"),
            WireFault::TypeCode => write!(f, "55 TypeCode"),
            WireFault::Value => write!(f, "55 Value"),
            WireFault::Trailing => write!(f, "55 Trailing"),
        }
    }
}
