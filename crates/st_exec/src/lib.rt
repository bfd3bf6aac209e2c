//! Room: device. Structured Text that runs: arithmetic, variables by slots, algorithms and guards over the numbers of a block.
//! `exec`, `eval` and `truth` are exactly what the book says that algorithms, expressions and guards do, steps counted, where that does not trap
//! and ends within 10^12 steps, which callers show.
#![tactic(auto)]

pub mod arithmetic;
mod code;
mod command;
mod evaluate;
mod execute;
mod expression;
mod iterations;
mod layout;
mod location;
mod row;
mod statement;
mod store;

pub use code::{Code, CodeLink};
pub use command::{CodeArm, CodeBranch, CodeCounting, CodeStmt, Procedure};
pub use evaluate::{eval, truth};
pub use execute::exec;
pub use expression::coded_term;
pub use layout::Layout;
pub use location::Location;
pub use statement::coded_algorithm;
pub use store::Store;
