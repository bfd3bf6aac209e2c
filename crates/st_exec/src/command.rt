//! Statements by slots.

use crate::code::Code;
use fb_words::ElemType;

/// A typed statement with the slots of its variables: IEC 61131-3 edition 3, 7.3.3.
#[derive(Drop)]
#[cycle(steps)]
pub enum CodeStmt {
    /// A variable, its slot and its new value.
    Set(String, usize, Code),
    /// An array, the slot of its first element, its lowest and its highest index, the index, and the element's new value.
    SetElement(String, usize, i64, i64, Code, Code),
    /// IF: its conditions, and what is done where none holds.
    If(Vec<CodeBranch>, Vec<CodeStmt>),
    /// CASE: the selector, the arms, and what is done where no label has its value.
    Case(Code, Vec<CodeArm>, Vec<CodeStmt>),
    /// FOR, and what is done in each iteration.
    For(CodeCounting, Vec<CodeStmt>),
}

/// How a FOR counts.
#[derive(Drop)]
pub struct CodeCounting {
    pub variable: String,
    pub slot: usize,
    pub of_type: ElemType,
    pub first: Code,
    pub last: Code,
    /// Not 0.
    pub step: i64,
    /// Whether both bounds are spelled as numbers without a type.
    pub plain: bool,
}

/// A condition, and what is done where it holds.
#[derive(Drop)]
#[cycle(steps)]
pub struct CodeBranch {
    pub condition: Code,
    pub body: Vec<CodeStmt>,
}

/// Labels, each the numbers from one to another, and what is done where one of them has the selector's value.
#[derive(Drop)]
#[cycle(steps)]
pub struct CodeArm {
    pub labels: Vec<(i64, i64)>,
    pub body: Vec<CodeStmt>,
}

/// An algorithm by slots: its statements, in order.
#[derive(Drop)]
pub struct Procedure {
    pub statements: Vec<CodeStmt>,
}
