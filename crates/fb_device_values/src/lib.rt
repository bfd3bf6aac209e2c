//! Room: device. The first values of all blocks of a device.
//! The stores hold exactly the book's first values, and nothing is refused but for want of memory.
#![tactic(auto)]

mod declare;
mod draft;
mod first;
mod leaf;
mod making;
mod number;
mod port;

pub use first::{FirstValues, first_values};
