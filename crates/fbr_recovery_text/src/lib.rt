//! Room: program. Error recovery of readers: the trees of a text as far as they can be read, with all faults of its form.
//! What cannot be read is left out, and the names in it are in doubt. No contracts: what it finds is tested.
#![tactic(auto)]

mod blocks;
mod reader;
mod statements;
mod systems;
mod texts;

pub use texts::{Reading, Text, read_text};
