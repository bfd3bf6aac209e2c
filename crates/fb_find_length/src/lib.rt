//! Room: finder. Whether the rows that a system must have make each text of a certificate longer than the checker reads: it is known of the names alone.
//! `rows_are_long` answers exactly by the least length of the book (`least_length`). It takes no memory, and ends as soon as the limit is passed.
#![tactic(auto)]

mod leaf;
mod row;
mod system;

pub use system::rows_are_long;
