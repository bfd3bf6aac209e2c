//! Room: program. Error recovery: all faults of a text, and none that only follows from another one.
//! Each declaration is read, typed (`fbr_recovery_types`) and wired by itself, and in it each statement, state, transition, instance and connection.
//! No contracts: what it finds is tested.
#![tactic(auto)]

mod networks;
mod numbers;
mod recovered;
mod rings;

pub use fbr_recovery_found::{Mistake, part_around};
pub use recovered::{Recovered, recover};
