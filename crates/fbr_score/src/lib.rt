//! Room: program. How sequences of stories went, in all, and the line and the status that say so.
//! `print_end` tells exactly how many sequences passed and failed, with status 1 if one failed. A count that can rise no more stays where it is.
#![tactic(auto)]

mod score;

pub use score::{Score, print_end, print_score};
