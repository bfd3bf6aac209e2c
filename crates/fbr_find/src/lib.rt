//! Room: program. Certificates as `fbr bound` is asked for them: the least one, one with other ranges, or one with more room in its queues.
//! A text that is found is one that the checker accepts, unless memory runs out. Not said: which ranges are proposed.
#![tactic(auto)]

mod finding;
mod wanted;

pub use finding::{bounded, typed_in};
pub use wanted::{RangesFrom, Wanted, read_wanted};
