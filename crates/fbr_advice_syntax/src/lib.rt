//! Room: program. What is told of a text that cannot be read: the token at fault, what could be written there, and the slips that are known.
//! No contracts: what it prints is tested.
#![tactic(auto)]

pub mod character;
pub mod expected;
pub mod misplaced;
pub mod order;
pub mod slips;
pub mod stopped;
pub mod syntax;
