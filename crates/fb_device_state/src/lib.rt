//! Room: device. A device in the course of its run, and the admission of an arrival.
//! `admit` admits exactly where the resource has the places and a number is left; else nothing changes. What holds between calls is `IsGood`.
#![tactic(auto)]

mod admission;
mod program;

pub use admission::{Shortage, admit};
pub use program::{Program, Running};
