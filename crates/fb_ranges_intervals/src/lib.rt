//! Room: checker. Ranges of numbers: what operations, relations and FOR make of them.
//! Each answers exactly the book's range. That these hold all results, and that their ends are reached, are laws of `fb_model`.
#![tactic(auto)]

mod cut;
mod interval;
mod iteration;
mod operation;
mod result;
mod span;

pub use cut::{is_truth, meets, mirrored, opposite};
pub use interval::Interval;
pub use iteration::{iterations, left_with, most_iterations, taken};
pub use operation::{range_one, range_two};
pub use span::{is_within, joined, whole};
