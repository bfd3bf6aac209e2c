//! Room: program. What is told of a text that is read and not well typed: names that are unknown or there twice, types that do not meet, numbers that do not fit.
//! No contracts: what it prints is tested.
#![tactic(auto)]

pub mod absent;
pub mod assigned;
pub mod calls;
pub mod circle;
pub mod ends;
pub mod literals;
pub mod numbers;
pub mod operators;
pub mod twice;
pub mod typing;
pub mod unknown;
