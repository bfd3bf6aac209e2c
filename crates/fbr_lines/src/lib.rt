//! Room: program. Lines that wait until they can be written, so that nobody has to wait for who reads them; and lines that are read as they come.
//! `Lines` keeps what it takes whole and in order, takes a line just where there is room, and counts those that it does not take.
#![tactic(auto)]

mod lines;
mod reading;

pub use lines::{Lines, PIECE};
pub use reading::{Next, next_line};
