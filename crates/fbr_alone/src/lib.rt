//! Room: program. Block types alone: the system that offers each event of a type and shows what the type emits, as a text, and what its events carry.
//! No contracts: which systems are made is tested.
#![tactic(auto)]

mod arguments;
mod around;
mod subjects;
mod system;

pub use arguments::{Argument, EventInput};
pub use around::{Alone, BEFORE_PATHS, Found, alone_in};
pub use subjects::{Subject, subjects_in};
