//! Why a source tree is no well typed system.

ghost use Rattle.std.specs.Prelude.{◌≡◌};
ghost use Rattle.fb_faults.specs.declared.typing.TypeFault.TheVariants.{OutOfMemory};

use crate::statement::TypingFault;
use std::alloc::{AllocError, AllocFailed};
use std::fmt;

/// Why a source tree is refused. An offset is in bytes from the text's beginning.
#[derive(Drop)]
pub enum TypeFault {
    /// Memory ran out. Code 9.
    OutOfMemory,
    /// The name at the offset stands for nothing there. Code 10.
    UnknownName(usize),
    /// The name at the offset stands for something else already. Code 11.
    DuplicateName(usize),
    /// An expression's type is not what is asked for at the offset. Code 12.
    TypeMismatch(usize),
    /// The literal at the offset does not fit its type. Code 13.
    BadLiteral(usize),
    /// The variable at the offset cannot be assigned there. Code 14.
    NotWritable(usize),
    /// The connection of the TO at the offset joins ends that do not go together. Code 15.
    BadConnection(usize),
    /// What the TO or `:=` at the offset gives a value has one already. Code 16.
    TwoSources(usize),
    /// The service at the offset of the instance's name lacks its number, has a wrong one, or one that is taken. Code 17.
    BadService(usize),
    /// The type whose name stands at the offset contains itself. Code 18.
    RecursiveComposite(usize),
    /// The declaration whose name stands at the offset is one too many. Code 19.
    Limit(usize),
    /// The ends of a channel differ, by the instance at the offset. Code 20.
    ChannelShape(usize),
}

impl TypeFault {
    ghost use Rattle.fb_faults.specs.Typings.{code_of};

    /// The number of the refusal.
    pub fn code(&self) -> u8
        ensures { result ≡ code_of self.now }
    {
        match self {
            TypeFault::OutOfMemory => 9,
            TypeFault::UnknownName(_) => 10,
            TypeFault::DuplicateName(_) => 11,
            TypeFault::TypeMismatch(_) => 12,
            TypeFault::BadLiteral(_) => 13,
            TypeFault::NotWritable(_) => 14,
            TypeFault::BadConnection(_) => 15,
            TypeFault::TwoSources(_) => 16,
            TypeFault::BadService(_) => 17,
            TypeFault::RecursiveComposite(_) => 18,
            TypeFault::Limit(_) => 19,
            TypeFault::ChannelShape(_) => 20,
        }
    }
}

/// The code, and the offset where there is one.
impl fmt::Display for TypeFault {
    ghost use Rattle.std.specs.Prelude.{Some};
    ghost use Rattle.fb_faults.specs.Typings.{line_of};

    ghost output = { λ f. Some (line_of f) };

    fn fmt<W: fmt::Write>(&self, f: &mut fmt::Formatter<W>) -> fmt::Result {
        match self {
            TypeFault::OutOfMemory => write!(f, "9"),
            TypeFault::UnknownName(offset) => write!(f, "10 {offset}"),
            TypeFault::DuplicateName(offset) => write!(f, "11 {offset}"),
            TypeFault::TypeMismatch(offset) => write!(f, "12 {offset}"),
            TypeFault::BadLiteral(offset) => write!(f, "13 {offset}"),
            TypeFault::NotWritable(offset) => write!(f, "14 {offset}"),
            TypeFault::BadConnection(offset) => write!(f, "15 {offset}"),
            TypeFault::TwoSources(offset) => write!(f, "16 {offset}"),
            TypeFault::BadService(offset) => write!(f, "17 {offset}"),
            TypeFault::RecursiveComposite(offset) => write!(f, "18 {offset}"),
            TypeFault::Limit(offset) => write!(f, "19 {offset}"),
            TypeFault::ChannelShape(offset) => write!(f, "20 {offset}"),
        }
    }
}

impl From<AllocError> for TypeFault {
    ghost from_gives = { λ _ e. e ≡ OutOfMemory };

    fn from(_: AllocError) -> TypeFault {
        TypeFault::OutOfMemory
    }
}

impl<T: Drop> From<AllocFailed<T>> for TypeFault {
    ghost from_gives = { λ _ e. e ≡ OutOfMemory };

    fn from(_: AllocFailed<T>) -> TypeFault {
        TypeFault::OutOfMemory
    }
}

/// A fault of Structured Text stands at the same place.
impl From<TypingFault> for TypeFault {
    ghost use Rattle.fb_faults.specs.Typings.{fault_of};

    ghost from_gives = { λ w f. f ≡ fault_of w };

    fn from(fault: TypingFault) -> TypeFault {
        match fault {
            TypingFault::OutOfMemory => TypeFault::OutOfMemory,
            TypingFault::UnknownName(at) => TypeFault::UnknownName(at),
            TypingFault::TypeMismatch(at) => TypeFault::TypeMismatch(at),
            TypingFault::BadLiteral(at) => TypeFault::BadLiteral(at),
            TypingFault::NotWritable(at) => TypeFault::NotWritable(at),
        }
    }
}
