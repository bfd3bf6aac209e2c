//! Room: program. JSON that is put together: objects and lists that are whole or not there at all.
//! No contracts: what it writes is tested.
#![tactic(auto)]

mod object;

pub use object::{List, Object};
