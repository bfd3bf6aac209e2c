//! Room: language. Types of Structured Text: expressions and statements over the variables of a block to typed ones.
//! `resolve_expr`, `resolve_condition` and `resolve_algorithm` accept exactly what is well typed, and answer its one typed form (`one_term`, `one_algorithm`).
//! A refusal is true at its place; which of several faults it tells is not said.
#![tactic(auto)]

mod command;
mod expression;
mod operand;
mod operation;
mod scope;
mod statement;
mod term;
mod types;
mod whole;

pub use command::{Counting, TypedArm, TypedBranch, TypedStmt};
pub use expression::signed;
pub use scope::{Scope, Variable};
pub use term::{TypedExpr, TypedLink, VariableName};
pub use types::widens;
pub use whole::{
    Algo, one_algorithm, one_term, refusals_are_true, resolve_algorithm, resolve_condition,
    resolve_expr,
};
