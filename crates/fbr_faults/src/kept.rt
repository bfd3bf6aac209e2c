//! Variables that leave their rows.

use crate::brought::{Sought, brought_by_list};
use crate::found::{Fault, leaving};
use crate::line::Lines;
use fb_ranges::{Ranges, copied};
use fb_ranges_intervals::is_within;
use st_types::{TypedStmt, VariableName};
use std::alloc::{AllocError, Global};

/// Statements that have run, where they stand in the text, and the ranges that they began with.
#[derive(Clone, Copy)]
pub(crate) struct Past<'a> {
    pub list: &'a [TypedStmt],
    pub lines: Lines<'a>,
    pub start: &'a Ranges,
}

// The first of these variables that is outside of its row.
fn first_outside<'a>(
    names: &[&'a VariableName],
    rows: &Ranges,
    ranges: &Ranges,
) -> Option<&'a VariableName> {
    for name in names {
        if !is_within(ranges.find_at(name), rows.find_at(name)) {
            return Some(*name);
        }
    }
    None
}

/// The first of these variables that is outside of its row in certain ranges, with the assignment in past statements that brought it out;
/// the place `at` where these have none.
pub(crate) fn outside_fault(
    alloc: Global,
    rows: &Ranges,
    names: &[&VariableName],
    ranges: &Ranges,
    at: usize,
    past: Past<'_>,
) -> Result<Option<Fault>, AllocError> {
    let Some(name) = first_outside(names, rows, ranges) else {
        return Ok(None);
    };
    let sought = Sought {
        alloc,
        rows,
        name: name.as_str(),
    };
    let mut start = copied(past.start)?;
    let fault = match brought_by_list(sought, past.list, past.lines, &mut start)? {
        Some(brought) => leaving(brought.at, &name.name, brought.range, rows)?,
        None => leaving(at, &name.name, ranges.find_at(name), rows)?,
    };
    Ok(Some(fault))
}
