//! Room: finder. How many dispatches of its resource an event of a verified system needs until all that it causes has ended.
//! `count_turns` answers unless memory runs out, with the least numbers that fit every device (`DispatchesFit`).
#![tactic(auto)]

mod alone;
mod demand;
mod least;
mod turns;

pub use alone::is_alone;
pub use least::ordered;
pub use turns::{Turns, count_turns};
