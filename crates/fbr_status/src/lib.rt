//! Room: program. The status of a process: that of its command if its output has gone out, and otherwise 3, or 4 if there was no memory.
//! Contracts: exactly that.
#![tactic(auto)]

mod status;

pub use status::{exit_code, outcome};
