//! Room: program. Names in a system, or in a block type alone: which instance, variable, state, device or resource each stands for, or what is nearest to it.
//! No contracts: what is found is tested.
#![tactic(auto)]

mod fault;
mod names;
mod near;
mod place;
mod variables;
mod within;

pub use fault::Fault;
pub use names::Names;
pub use near::unknown;
pub use place::{NumberedLeaf, Sort};
pub use variables::{Declared, find_state, find_variable};
pub use within::find_event;
