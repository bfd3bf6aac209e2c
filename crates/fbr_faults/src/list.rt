//! Statements at fault.

use crate::expression::{Array, expression_fault, index_fault};
use crate::found::{Fault, leaving};
use crate::kept::{Past, outside_fault};
use crate::line::{Line, Lines};
use fb_ranges::{Ranges, Told, copied, examine_one, names_assigned, narrow, range, reset};
use fb_ranges_intervals::{Interval, is_within, most_iterations, taken};
use st_types::{Counting, TypedArm, TypedBranch, TypedExpr, TypedStmt, VariableName};
use std::alloc::{AllocError, Global};

// A value that leaves the row of the array that it is given to.
fn element_leaves(
    at: usize,
    name: &String,
    value: Interval,
    rows: &Ranges,
) -> Result<Option<Fault>, AllocError> {
    if is_within(value, rows.find(name.as_str())) {
        return Ok(None);
    }
    Ok(Some(leaving(at, name, value, rows)?))
}

// The first fault of an assigned element.
fn element_fault(
    rows: &Ranges,
    array: Array<'_>,
    index: &TypedExpr,
    value: &TypedExpr,
    line: Line<'_>,
    ranges: &Ranges,
) -> Result<Option<Fault>, AllocError> {
    let origin = line.index();
    if let Some(fault) = expression_fault(index, origin, ranges)? {
        return Ok(Some(fault));
    }
    if let Some(fault) = expression_fault(value, line.value(), ranges)? {
        return Ok(Some(fault));
    }
    let index = range(index, ranges).range;
    if let Some(fault) = index_fault(origin.at, array, index)? {
        return Ok(Some(fault));
    }
    element_leaves(line.at, array.name, range(value, ranges).range, rows)
}

// A variable that is outside of its row where a FOR begins that assigns it; the statements before the FOR may have brought it out.
fn beginning_fault(
    alloc: Global,
    rows: &Ranges,
    statement: &TypedStmt,
    ranges: &Ranges,
    at: usize,
    past: Past<'_>,
) -> Result<Option<Fault>, AllocError> {
    match statement {
        TypedStmt::For(_, body) => {
            let names = names_assigned(alloc, body)?;
            outside_fault(alloc, rows, &names, ranges, at, past)
        }
        _ => Ok(None),
    }
}

/// The first fault of statements, and at their end of these variables; none where there is no fault.
#[cycle(walking)]
pub(crate) fn body_fault(
    alloc: Global,
    rows: &Ranges,
    list: &[TypedStmt],
    names: &[&VariableName],
    lines: Lines<'_>,
    ranges: &mut Ranges,
) -> Result<Option<Fault>, AllocError> {
    let start = copied(ranges)?;
    let found = list_fault(alloc, rows, list, lines, ranges)?;
    if found.is_some() {
        return Ok(found);
    }
    let past = Past {
        list,
        lines,
        start: &start,
    };
    outside_fault(alloc, rows, names, ranges, lines.at, past)
}

// The first fault of statements. The ranges are those that they begin with, and then those that they end with.
#[cycle(walking)]
fn list_fault(
    alloc: Global,
    rows: &Ranges,
    list: &[TypedStmt],
    lines: Lines<'_>,
    ranges: &mut Ranges,
) -> Result<Option<Fault>, AllocError> {
    let mut asked = Ranges::new(alloc)?;
    let start = copied(ranges)?;
    for (i, statement) in list.iter().enumerate() {
        let mut before = copied(ranges)?;
        let one = lines.line(i);
        match examine_one(alloc, rows, statement, ranges, &mut asked)? {
            Told::Steps(_) => {}
            Told::Traps => return one_fault(alloc, rows, statement, one, &mut before),
            Told::Leaves => {
                let past = Past {
                    list: &list[..i],
                    lines,
                    start: &start,
                };
                let found = beginning_fault(alloc, rows, statement, &before, one.at, past)?;
                if found.is_some() {
                    return Ok(found);
                }
                return one_fault(alloc, rows, statement, one, &mut before);
            }
        }
    }
    Ok(None)
}

// The first fault of a statement.
#[cycle(walking)]
fn one_fault(
    alloc: Global,
    rows: &Ranges,
    statement: &TypedStmt,
    line: Line<'_>,
    ranges: &mut Ranges,
) -> Result<Option<Fault>, AllocError> {
    match statement {
        TypedStmt::Set(_, value) => expression_fault(value, line.value(), ranges),
        TypedStmt::SetElement(name, low, high, index, value) => {
            let array = Array {
                name: &name.name,
                low: *low,
                high: *high,
            };
            element_fault(rows, array, index, value, line, ranges)
        }
        TypedStmt::If(branches, other) => {
            branches_fault(alloc, rows, branches, other, line, ranges)
        }
        TypedStmt::Case(selector, arms, other) => {
            if let Some(fault) = expression_fault(selector, line.value(), ranges)? {
                return Ok(Some(fault));
            }
            arms_fault(alloc, rows, arms, other, line, ranges)
        }
        TypedStmt::For(counting, body) => for_fault(alloc, rows, counting, body, line, ranges),
    }
}

#[cycle(walking)]
fn branches_fault(
    alloc: Global,
    rows: &Ranges,
    branches: &[TypedBranch],
    other: &[TypedStmt],
    line: Line<'_>,
    ranges: &mut Ranges,
) -> Result<Option<Fault>, AllocError> {
    for (i, branch) in branches.iter().enumerate() {
        let origin = line.condition(i);
        if let Some(fault) = expression_fault(&branch.condition, origin, ranges)? {
            return Ok(Some(fault));
        }
        let mut inside = copied(ranges)?;
        narrow(&branch.condition, true, &mut inside)?;
        let lines = line.branch_body(i);
        let found = list_fault(alloc, rows, &branch.body, lines, &mut inside)?;
        if found.is_some() {
            return Ok(found);
        }
        narrow(&branch.condition, false, ranges)?;
    }
    list_fault(alloc, rows, other, line.rest(), ranges)
}

#[cycle(walking)]
fn arms_fault(
    alloc: Global,
    rows: &Ranges,
    arms: &[TypedArm],
    other: &[TypedStmt],
    line: Line<'_>,
    ranges: &mut Ranges,
) -> Result<Option<Fault>, AllocError> {
    for (i, arm) in arms.iter().enumerate() {
        let mut inside = copied(ranges)?;
        let lines = line.arm_body(i);
        let found = list_fault(alloc, rows, &arm.body, lines, &mut inside)?;
        if found.is_some() {
            return Ok(found);
        }
    }
    list_fault(alloc, rows, other, line.rest(), ranges)
}

#[cycle(walking)]
fn for_fault(
    alloc: Global,
    rows: &Ranges,
    counting: &Counting,
    body: &[TypedStmt],
    line: Line<'_>,
    ranges: &mut Ranges,
) -> Result<Option<Fault>, AllocError> {
    if let Some(fault) = expression_fault(&counting.first, line.first(), ranges)? {
        return Ok(Some(fault));
    }
    if let Some(fault) = expression_fault(&counting.last, line.last(), ranges)? {
        return Ok(Some(fault));
    }
    let first = range(&counting.first, ranges).range;
    let last = range(&counting.last, ranges).range;
    let iterations = most_iterations(first, last, counting.step);
    if iterations == 0 {
        return Ok(None);
    }
    let names = names_assigned(alloc, body)?;
    reset(&names, rows, ranges)?;
    let own = taken(first, last, counting.step, iterations);
    ranges.insert_at(&counting.variable, own)?;
    body_fault(alloc, rows, body, &names, line.rest(), ranges)
}
