//! Literals.

use fb_words::ElemType;

/// A literal: IEC 61131-3 edition 3, 6.3.
#[derive(Clone, Copy)]
pub enum Literal {
    /// A number without a type, with a `-` directly before it or not, and its size.
    Whole(bool, u64),
    /// A number with its type: the sign and the size.
    Typed(ElemType, bool, u64),
    /// A TIME: the sign and the size in milliseconds.
    Duration(bool, u64),
    /// TRUE or FALSE.
    Truth(bool),
}

/// A literal and its place, which is behind a `-` before it.
#[derive(Clone, Copy)]
pub struct Constant {
    pub value: Literal,
    pub at: usize,
}
