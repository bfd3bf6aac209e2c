//! Statements.

use crate::expression::Expr;
use crate::literal::Constant;
use crate::name::Name;

/// A statement: IEC 61131-3 edition 3, 7.3.3. A place is the offset of a token's first byte.
#[derive(Drop)]
#[cycle(stmt)]
pub enum Stmt {
    /// `name := expr`, with the place of `:=`.
    Assign(Name, usize, Expr),
    /// `name[expr] := expr`, with the places of `[` and `:=` before what they ask for.
    AssignElement(Name, usize, Expr, usize, Expr),
    /// IF: its conditions, and what is done where none holds.
    If(Vec<Branch>, Vec<Stmt>),
    /// CASE and its place: the selector, the arms, and what is done where no label has the value.
    Case(usize, Expr, Vec<Arm>, Vec<Stmt>),
    /// FOR and its place: the variable, the first and the last value, the step, and what is done in each iteration.
    For(usize, Name, Bound, Bound, Option<Constant>, Vec<Stmt>),
}

/// The first or the last value of a FOR, and whether it is spelled as a number without a type, perhaps with a `-` directly before it. In parentheses it is not.
#[derive(Drop)]
pub struct Bound {
    pub value: Expr,
    pub plain: bool,
}

/// A condition with the place of its IF or ELSIF, and what is done where it holds.
#[derive(Drop)]
#[cycle(stmt)]
pub struct Branch {
    pub at: usize,
    pub condition: Expr,
    pub body: Vec<Stmt>,
}

/// Labels, and what is done where one of them has the value.
#[derive(Drop)]
#[cycle(stmt)]
pub struct Arm {
    pub labels: Vec<Label>,
    pub body: Vec<Stmt>,
}

/// A number by which an arm is chosen, or all numbers from one to another.
#[derive(Clone, Copy)]
pub struct Label {
    pub low: Constant,
    pub high: Option<Constant>,
}
