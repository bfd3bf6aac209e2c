//! Room: finder. Inequalities over numbered places: an order, a closed walk, and the least numbers that fulfil them.
//! `sort_places` answers an order or a closed walk, `solve` the least numbers within a limit, `is_closed_walk` is true exactly of closed walks with a constant of 1 or more.
#![tactic(auto)]

mod graph;
mod system;
mod walk;

pub use graph::{Sorted, sort_places};
pub use system::{Alternative, Solved, rows_needed, solve};
pub use walk::is_closed_walk;
