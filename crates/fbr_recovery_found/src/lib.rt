//! Room: program. What error recovery of a text begins with: its tokens, the items that are read by themselves, and the faults and doubts that are found.
//! No contracts: what it finds is tested.
#![tactic(auto)]

mod around;
mod found;
mod lexing;
mod piece;

pub use around::{begins, part_around};
pub use found::{Found, MOST, Mistake, mistake_of};
pub use lexing::{Lexed, read_tokens};
pub use piece::{Internal, Piece};
