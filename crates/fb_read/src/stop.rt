//! Where reading stopped.

ghost use Rattle.std.specs.Prelude.{◌≡◌};
ghost use Rattle.fb_lex.specs.Views.{tokens_of};
ghost use Rattle.fb_read.specs.Faults.{offset_of};
ghost use Rattle.fb_read.specs.declared.stop.Stop.TheVariants.{Memory};

use fb_faults::TextFault;
use fb_lex::Token;
use std::alloc::{AllocError, AllocFailed};

/// Why reading stopped, and how many tokens were left then.
#[derive(Drop)]
pub enum Stop {
    /// Memory ran out.
    Memory,
    /// The first of the tokens left cannot stand there, or there is none.
    Syntax(usize),
    /// The first of the tokens left opens one nesting too many.
    TooDeep(usize),
}

impl Stop {
    ghost use Rattle.fb_read.specs.Faults.{Says};

    /// The fault of a text that has these tokens and so many bytes.
    pub fn fault(self, tokens: &[Token], length: usize) -> TextFault
        ensures { Says length (tokens_of tokens.now) self result }
    {
        match self {
            Stop::Memory => TextFault::OutOfMemory,
            Stop::Syntax(left) => TextFault::Syntax(offset(tokens, left, length)),
            Stop::TooDeep(left) => TextFault::TooDeep(offset(tokens, left, length)),
        }
    }
}

// Where the tokens begin that are left, or the length where there are none.
fn offset(tokens: &[Token], left: usize, length: usize) -> usize
    ensures { result ≡ offset_of length (tokens_of tokens.now) left }
{
    match tokens.get(tokens.len().saturating_sub(left)) {
        Some(token) => token.start,
        None => length,
    }
}

impl From<AllocError> for Stop {
    ghost from_gives = { λ _ e. e ≡ Memory };

    fn from(_: AllocError) -> Stop {
        Stop::Memory
    }
}

impl<T: Drop> From<AllocFailed<T>> for Stop {
    ghost from_gives = { λ _ e. e ≡ Memory };

    fn from(_: AllocFailed<T>) -> Stop {
        Stop::Memory
    }
}
