//! Faults, each with its place.

use fb_ranges::{Interval, Ranges};
use std::alloc::AllocError;

/// What is wrong, with the ranges that are found at that place.
#[derive(Drop)]
pub enum Wrong {
    /// A divisor that may be 0, with its range.
    Divisor(Interval),
    /// An index that may lie outside of an array: the array's name, the index's range, and the array's lowest and highest index.
    Index(String, Interval, i64, i64),
    /// A value that may lie outside of the row of the variable (or array) that it is given to: the name, the value's range, and the row.
    Leaves(String, Interval, Interval),
}

/// What is at fault: the byte of the text at which the statement or operation stands, and what is wrong.
#[derive(Drop)]
pub struct Fault {
    pub at: usize,
    pub wrong: Wrong,
}

/// A value that leaves the row of a variable or an array, at a place.
pub(crate) fn leaving(
    at: usize,
    name: &String,
    value: Interval,
    rows: &Ranges,
) -> Result<Fault, AllocError> {
    let row = rows.find(name.as_str());
    Ok(Fault {
        at,
        wrong: Wrong::Leaves(name.clone()?, value, row),
    })
}
