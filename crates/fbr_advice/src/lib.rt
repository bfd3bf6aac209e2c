//! Room: program. What is shared by what is told of a text: its tokens, the kinds of its names, the nearest name, what other languages write, and an advice as a value.
//! No contracts: what it prints is tested.
#![tactic(auto)]

pub mod advice;
pub mod candidates;
pub mod foreign;
pub mod kinds;
pub mod operand;
pub mod tokens;
pub mod wanted;
