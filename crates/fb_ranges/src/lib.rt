//! Room: checker. Which guards and algorithms are clear under the ranges of their variables, what they cost, and by how much they ask to enlarge rows.
//! `check_algorithm` and `check_guard` accept exactly what is clear, and refuse with 36 or 37 just where the definitions say so; `max_steps` is the exact cost up to 10^12.
//! Laws: what is accepted, run from values in the rows, neither traps nor leaves them, and takes no more steps (`clear_algorithms_keep`, `steps_are_enough`).
#![tactic(auto)]

mod algorithm;
mod assigned;
mod examination;
mod expression;
mod fault;
mod guard;
mod join;
mod law;
mod merge;
mod narrowed;
mod rows;
mod side;
mod steps;
mod table;
mod told;
mod touched;
mod way;

pub use algorithm::{check_algorithm, grow, max_steps};
pub use assigned::names_assigned;
pub use examination::examine_one;
pub use expression::{Ranged, is_between, range};
pub use fault::RangeFault;
pub use fb_ranges_intervals::Interval;
pub use guard::check_guard;
pub use join::{copied, reset};
pub use law::{clear_algorithms_keep, clear_guards_answer, steps_are_enough};
pub use narrowed::narrow;
pub use rows::Ranges;
pub use table::is_same;
pub use told::Told;
