//! Tokens.

use fb_words::{ElemType, Mark};

/// What a token is.
#[derive(Drop)]
pub enum Kind {
    /// A name, in upper case.
    Name(String),
    /// A whole number without a type.
    Number(u64),
    /// A whole number with the name of its type, as `INT#-5`: its sign and its size.
    Typed(ElemType, bool, u64),
    /// A TIME, as `T#1m30s`: its sign, and its size in milliseconds.
    Duration(bool, u64),
    /// A sign or a reserved word.
    Mark(Mark),
}

/// A token and the bytes of the text that it takes, from `start` to before `end`.
#[derive(Drop)]
pub struct Token {
    pub kind: Kind,
    pub start: usize,
    pub end: usize,
}
