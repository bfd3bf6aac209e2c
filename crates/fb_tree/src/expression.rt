//! Expressions.

use crate::literal::Constant;
use crate::name::Name;
use fb_words::Operator;

/// An expression: IEC 61131-3 edition 3, 7.3.2. A place is the offset of a token's first byte. Parentheses leave no trace.
#[derive(Drop)]
#[cycle(expr)]
pub enum Expr {
    /// A literal, with the sign of a number that has a `-` directly before it.
    Literal(Constant),
    Variable(Name),
    /// An element of an array, with the place of its `[`.
    Element(Name, usize, Box<Expr>),
    /// A function and its arguments.
    Call(Name, Vec<Expr>),
    /// A unary minus and its place.
    Negative(usize, Box<Expr>),
    /// A NOT and its place.
    Inverse(usize, Box<Expr>),
    /// A first operand, and operators of one level that group to the left.
    Chain(Box<Expr>, Vec<Link>),
}

/// An operator with its place, and its second operand.
#[derive(Drop)]
#[cycle(expr)]
pub struct Link {
    pub operator: Operator,
    pub at: usize,
    pub operand: Expr,
}
