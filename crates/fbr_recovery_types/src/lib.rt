//! Room: program. Error recovery of types: the interfaces and charts of block types, each declaration by itself, with all their faults.
//! No contracts: what it finds is tested.
#![tactic(auto)]

mod charts;
mod faces;
mod types;
mod variables;

pub use types::{Part, Types};
pub use variables::declare;
