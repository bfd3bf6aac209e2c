//! Statements and guards whose arithmetic may wrap.

use crate::line::{Line, Lines};
use crate::origin::Origin;
use crate::shape::beginning;
use crate::wrap::{Wrap, expression_wraps};
use fb_ranges::{Ranges, copied, examine_one, names_assigned, narrow, range, reset};
use fb_ranges_intervals::{most_iterations, taken};
use fb_tree::{Expr, Stmt};
use st_types::{Algo, Counting, TypedArm, TypedBranch, TypedExpr, TypedStmt};
use std::alloc::{AllocError, Global};

// The rows of all variables.
#[derive(Clone, Copy)]
struct Rows<'a> {
    alloc: Global,
    rows: &'a Ranges,
}

// Notes what may wrap in statements. The ranges are those that they begin with, and then those that they end with.
#[cycle(noting)]
fn list_wraps(
    all: Rows<'_>,
    list: &[TypedStmt],
    lines: Lines<'_>,
    ranges: &mut Ranges,
    found: &mut Vec<Wrap>,
) -> Result<(), AllocError> {
    let mut asked = Ranges::new(all.alloc)?;
    for (i, statement) in list.iter().enumerate() {
        if matches!(
            statement,
            TypedStmt::Set(_, _) | TypedStmt::SetElement(_, _, _, _, _)
        ) {
            // It narrows nothing, so no copy is needed.
            one_wraps(all, statement, lines.line(i), ranges, found)?;
            examine_one(all.alloc, all.rows, statement, ranges, &mut asked)?;
        } else {
            let mut before = copied(ranges)?;
            examine_one(all.alloc, all.rows, statement, ranges, &mut asked)?;
            one_wraps(all, statement, lines.line(i), &mut before, found)?;
        }
    }
    Ok(())
}

// The same of one statement, with the ranges that it begins with.
#[cycle(noting)]
fn one_wraps(
    all: Rows<'_>,
    statement: &TypedStmt,
    line: Line<'_>,
    ranges: &mut Ranges,
    found: &mut Vec<Wrap>,
) -> Result<(), AllocError> {
    match statement {
        TypedStmt::Set(_, value) => expression_wraps(value, line.value(), ranges, found),
        TypedStmt::SetElement(_, _, _, index, value) => {
            expression_wraps(index, line.index(), ranges, found)?;
            expression_wraps(value, line.value(), ranges, found)
        }
        TypedStmt::If(branches, other) => {
            branches_wraps(all, branches, line, ranges, found)?;
            list_wraps(all, other, line.rest(), ranges, found)
        }
        TypedStmt::Case(selector, arms, other) => {
            expression_wraps(selector, line.value(), ranges, found)?;
            arms_wraps(all, arms, line, ranges, found)?;
            list_wraps(all, other, line.rest(), ranges, found)
        }
        TypedStmt::For(counting, body) => for_wraps(all, counting, body, line, ranges, found),
    }
}

#[cycle(noting)]
fn branches_wraps(
    all: Rows<'_>,
    branches: &[TypedBranch],
    line: Line<'_>,
    ranges: &mut Ranges,
    found: &mut Vec<Wrap>,
) -> Result<(), AllocError> {
    for (i, branch) in branches.iter().enumerate() {
        expression_wraps(&branch.condition, line.condition(i), ranges, found)?;
        let mut inside = copied(ranges)?;
        narrow(&branch.condition, true, &mut inside)?;
        list_wraps(all, &branch.body, line.branch_body(i), &mut inside, found)?;
        narrow(&branch.condition, false, ranges)?;
    }
    Ok(())
}

#[cycle(noting)]
fn arms_wraps(
    all: Rows<'_>,
    arms: &[TypedArm],
    line: Line<'_>,
    ranges: &Ranges,
    found: &mut Vec<Wrap>,
) -> Result<(), AllocError> {
    for (i, arm) in arms.iter().enumerate() {
        let mut inside = copied(ranges)?;
        list_wraps(all, &arm.body, line.arm_body(i), &mut inside, found)?;
    }
    Ok(())
}

#[cycle(noting)]
fn for_wraps(
    all: Rows<'_>,
    counting: &Counting,
    body: &[TypedStmt],
    line: Line<'_>,
    ranges: &mut Ranges,
    found: &mut Vec<Wrap>,
) -> Result<(), AllocError> {
    expression_wraps(&counting.first, line.first(), ranges, found)?;
    expression_wraps(&counting.last, line.last(), ranges, found)?;
    let first = range(&counting.first, ranges).range;
    let last = range(&counting.last, ranges).range;
    let iterations = most_iterations(first, last, counting.step);
    if iterations == 0 {
        return Ok(());
    }
    let names = names_assigned(all.alloc, body)?;
    reset(&names, all.rows, ranges)?;
    let own = taken(first, last, counting.step, iterations);
    ranges.insert_at(&counting.variable, own)?;
    list_wraps(all, body, line.rest(), ranges, found)
}

/// Notes the operations of an algorithm that may wrap under the rows of its variables. `source` is the text's tree of the same statements.
pub fn algorithm_wraps(
    alloc: Global,
    source: &[Stmt],
    algo: &Algo,
    rows: &Ranges,
    found: &mut Vec<Wrap>,
) -> Result<(), AllocError> {
    let all = Rows { alloc, rows };
    let mut ranges = copied(rows)?;
    let at = (Lines { at: 0, source }).line(0).at;
    let lines = Lines { at, source };
    list_wraps(all, &algo.statements, lines, &mut ranges, found)
}

/// The same of a guard.
pub fn guard_wraps(
    source: &Expr,
    guard: &TypedExpr,
    rows: &Ranges,
    found: &mut Vec<Wrap>,
) -> Result<(), AllocError> {
    let origin = Origin {
        at: beginning(source),
        source: Some(source),
    };
    expression_wraps(guard, origin, rows, found)
}
