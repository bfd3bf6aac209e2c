//! Room: language. Whether two typed blocks are the same, so that instances of one type share what runs of it.
//! Where `is_alike` says so, they are the same block of the book. Not said: that it ever says so.
#![tactic(auto)]

mod algorithm;
mod chart;
mod face;
mod names;
mod term;

pub use chart::is_alike;
