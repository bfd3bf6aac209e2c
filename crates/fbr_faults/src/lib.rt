//! Room: program. The operation at fault in what is not clear, with the ranges there; in what is clear, arithmetic that may wrap, and guards that never hold.
//! No contracts: what it finds is tested.
#![tactic(auto)]

mod algorithm;
mod brought;
mod expression;
mod found;
mod kept;
mod line;
mod list;
mod origin;
mod relation;
mod shape;
mod told;
mod tried;
mod truth;
mod wrap;
mod wrapping;

pub use algorithm::{algorithm_fault, guard_fault};
pub use found::{Fault, Wrong};
pub use told::{tell_fault, tell_numbers};
pub use truth::guard_can_hold;
pub use wrap::Wrap;
pub use wrapping::{algorithm_wraps, guard_wraps};
