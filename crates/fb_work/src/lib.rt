//! Room: finder. How much work an event of a verified system causes at most, at a price for each primitive, until all that it causes has ended.
//! `count_work` answers with the least numbers that pay for every device, and over every run no cause spends more than its opening weighs (`BoundsWork`).
#![tactic(auto)]

mod algorithms;
mod charged;
mod refusal;
mod system;
mod work;

pub use refusal::NoWork;
pub use work::{Work, count_work};
