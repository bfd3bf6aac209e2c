//! Room: language. Texts to tokens.
//! `lex` answers exactly the tokens that the text spells, or the one first fault; a text spells one list of tokens (`one_spelling`, `one_fault`).
#![tactic(auto)]

mod characters;
mod gap;
mod lexer;
mod literal;
mod number;
mod scan;
mod sign;
mod span;
mod token;
mod word;

pub use lexer::{lex, one_fault, one_spelling};
pub use token::{Kind, Token};
