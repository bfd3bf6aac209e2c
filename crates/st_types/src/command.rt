//! Typed statements.

use crate::term::{TypedExpr, VariableName};
use fb_words::ElemType;

/// A statement whose expressions have types: IEC 61131-3 edition 3, 7.3.3.
#[derive(Drop)]
#[cycle(command)]
pub enum TypedStmt {
    /// A variable and its new value.
    Set(VariableName, TypedExpr),
    /// An array, its lowest and its highest index, the index, and the element's new value.
    SetElement(VariableName, i64, i64, TypedExpr, TypedExpr),
    /// IF: its conditions, and what is done where none holds.
    If(Vec<TypedBranch>, Vec<TypedStmt>),
    /// CASE: the selector, the arms, and what is done where no label has its value.
    Case(TypedExpr, Vec<TypedArm>, Vec<TypedStmt>),
    /// FOR, and what is done in each iteration.
    For(Counting, Vec<TypedStmt>),
}

/// How a FOR counts.
#[derive(Drop)]
pub struct Counting {
    pub variable: VariableName,
    pub of_type: ElemType,
    pub first: TypedExpr,
    pub last: TypedExpr,
    /// Not 0.
    pub step: i64,
    /// Whether both bounds are spelled as numbers without a type.
    pub plain: bool,
}

/// A condition, and what is done where it holds.
#[derive(Drop)]
#[cycle(command)]
pub struct TypedBranch {
    pub condition: TypedExpr,
    pub body: Vec<TypedStmt>,
}

/// Labels, each the numbers from one to another, and what is done where one of them has the selector's value.
#[derive(Drop)]
#[cycle(command)]
pub struct TypedArm {
    pub labels: Vec<(i64, i64)>,
    pub body: Vec<TypedStmt>,
}
