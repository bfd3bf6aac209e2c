//! Assignments that bring a variable out of its row.

use crate::line::{Line, Lines};
use fb_ranges::{Ranges, copied, examine_one, narrow};
use fb_ranges_intervals::{Interval, is_within};
use st_types::{TypedArm, TypedBranch, TypedStmt};
use std::alloc::{AllocError, Global};

/// Where a variable gets a value outside of its row, and the value's range.
#[derive(Clone, Copy)]
pub(crate) struct Brought {
    pub at: usize,
    pub range: Interval,
}

/// A variable whose way out of its row is looked for, with the rows of all variables.
#[derive(Clone, Copy)]
pub(crate) struct Sought<'a> {
    pub alloc: Global,
    pub rows: &'a Ranges,
    pub name: &'a str,
}

impl Sought<'_> {
    // Whether the variable lies in its row.
    fn is_kept(self, ranges: &Ranges) -> bool {
        is_within(ranges.find(self.name), self.rows.find(self.name))
    }
}

/// The last of some statements that brings a variable out of its row, which it has at their end; none where it is in its row there.
///
/// The ranges are those that the statements begin with, and then those that they end with.
#[cycle(bringing)]
pub(crate) fn brought_by_list(
    sought: Sought<'_>,
    list: &[TypedStmt],
    lines: Lines<'_>,
    ranges: &mut Ranges,
) -> Result<Option<Brought>, AllocError> {
    let mut asked = Ranges::new(sought.alloc)?;
    let mut found = None;
    for (i, statement) in list.iter().enumerate() {
        let mut before = copied(ranges)?;
        examine_one(sought.alloc, sought.rows, statement, ranges, &mut asked)?;
        if sought.is_kept(&before) && !sought.is_kept(ranges) {
            let whole = ranges.find(sought.name);
            let one = lines.line(i);
            found = Some(brought_by_one(sought, statement, one, whole, &mut before)?);
        }
    }
    if sought.is_kept(ranges) {
        return Ok(None);
    }
    Ok(found)
}

// The same of one statement, which brings the variable to a range outside of its row.
#[cycle(bringing)]
fn brought_by_one(
    sought: Sought<'_>,
    statement: &TypedStmt,
    line: Line<'_>,
    range: Interval,
    ranges: &mut Ranges,
) -> Result<Brought, AllocError> {
    let inner = match statement {
        TypedStmt::If(branches, other) => {
            brought_by_branches(sought, branches, other, line, ranges)?
        }
        TypedStmt::Case(_, arms, other) => { brought_by_arms(sought, arms, other, line, ranges)? }
        TypedStmt::Set(_, _) | TypedStmt::SetElement(_, _, _, _, _) | TypedStmt::For(_, _) => None,
    };
    Ok(inner.unwrap_or(Brought { at: line.at, range }))
}

#[cycle(bringing)]
fn brought_by_branches(
    sought: Sought<'_>,
    branches: &[TypedBranch],
    other: &[TypedStmt],
    line: Line<'_>,
    ranges: &mut Ranges,
) -> Result<Option<Brought>, AllocError> {
    for (i, branch) in branches.iter().enumerate() {
        let mut inside = copied(ranges)?;
        narrow(&branch.condition, true, &mut inside)?;
        let lines = line.branch_body(i);
        let found = brought_by_list(sought, &branch.body, lines, &mut inside)?;
        if found.is_some() {
            return Ok(found);
        }
        narrow(&branch.condition, false, ranges)?;
    }
    brought_by_list(sought, other, line.rest(), ranges)
}

#[cycle(bringing)]
fn brought_by_arms(
    sought: Sought<'_>,
    arms: &[TypedArm],
    other: &[TypedStmt],
    line: Line<'_>,
    ranges: &mut Ranges,
) -> Result<Option<Brought>, AllocError> {
    for (i, arm) in arms.iter().enumerate() {
        let mut inside = copied(ranges)?;
        let lines = line.arm_body(i);
        let found = brought_by_list(sought, &arm.body, lines, &mut inside)?;
        if found.is_some() {
            return Ok(found);
        }
    }
    brought_by_list(sought, other, line.rest(), ranges)
}
