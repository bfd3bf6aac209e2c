//! Room: program. What is noted of a text that is accepted: what it has and does not use, and what can never happen in it.
//! No contracts: what it prints is tested.
#![tactic(auto)]

pub mod charted;
pub mod known;
pub mod marked;
pub mod noted;
pub mod quiet;
pub mod shadowed;
pub mod used;
pub mod wired;
