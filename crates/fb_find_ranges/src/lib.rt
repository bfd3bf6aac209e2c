//! Room: finder. The finder's ranges, enlarged in rounds until nothing asks for more, and their rows RANGE.
//! `last_rows` and `tables` answer exactly the ranges after the last round (`AreFoundTables`). That these are the narrowest is not said.
#![tactic(auto)]

mod alike;
mod first;
mod found_law;
mod found_table;
mod last;
mod near;
mod round;
mod row;
mod rows;
mod same;
mod service;
mod table;
mod widen;
mod work;

pub use found_law::{nodes_are_apart, ranges_are_apart, resources_are_apart, rows_have_capitals};
pub use found_table::tables;
pub use last::last_rows;
pub use row::add_ranges;
pub use widen::LAST_EARLY_ROUND;
