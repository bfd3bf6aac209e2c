//! Why Structured Text is not well typed.

ghost use Rattle.std.specs.Prelude.{◌≡◌};
ghost use Rattle.fb_faults.specs.declared.statement.TypingFault.TheVariants.{OutOfMemory};

use std::alloc::{AllocError, AllocFailed};

/// Why Structured Text is refused. An offset is in bytes from the text's beginning.
#[derive(Drop)]
pub enum TypingFault {
    /// Memory ran out. Code 9.
    OutOfMemory,
    /// The name at the offset stands for nothing there. Code 10.
    UnknownName(usize),
    /// What stands at the offset asks for a type and is not given it. Code 12.
    TypeMismatch(usize),
    /// The literal at the offset does not fit its type. Code 13.
    BadLiteral(usize),
    /// The variable at the offset cannot be assigned there. Code 14.
    NotWritable(usize),
}

impl TypingFault {
    ghost use Rattle.fb_faults.specs.Statements.{code_of};

    /// The number of the refusal.
    pub fn code(&self) -> u8
        ensures { result ≡ code_of self.now }
    {
        match self {
            TypingFault::OutOfMemory => 9,
            TypingFault::UnknownName(_) => 10,
            TypingFault::TypeMismatch(_) => 12,
            TypingFault::BadLiteral(_) => 13,
            TypingFault::NotWritable(_) => 14,
        }
    }
}

impl From<AllocError> for TypingFault {
    ghost from_gives = { λ _ e. e ≡ OutOfMemory };

    fn from(_: AllocError) -> TypingFault {
        TypingFault::OutOfMemory
    }
}

impl<T: Drop> From<AllocFailed<T>> for TypingFault {
    ghost from_gives = { λ _ e. e ≡ OutOfMemory };

    fn from(_: AllocFailed<T>) -> TypingFault {
        TypingFault::OutOfMemory
    }
}
