//! The walk through statements: what each of them gives variables, and asks of their ranges. Where a scene skips, arms that cannot run ask nothing.

use crate::ask::{ask, settle_and_give};
use crate::case::{always_has, may_have};
use crate::value::{may_fail, may_hold, value};
use crate::way::{Scene, Way, add_part, add_way, give, join_ways, narrow_way, only_ways};
use fb_ranges::{Ranges, names_assigned};
use fb_ranges_intervals::{Interval, left_with, most_iterations, taken};
use st_types::{Counting, TypedArm, TypedBranch, TypedStmt};
use std::alloc::AllocError;

// A CASE: what its selector may be, its arms, and what runs where no arm does.
#[derive(Clone, Copy)]
struct Selection<'a> {
    selected: Interval,
    arms: &'a [TypedArm],
    other: &'a [TypedStmt],
}

/// The walk through a list of statements.
#[cycle(walking)]
pub(crate) fn walk(
    scene: Scene<'_>,
    list: &[TypedStmt],
    way: &mut Way,
    asked: &mut Ranges,
) -> Result<(), AllocError> {
    for statement in list {
        walk_one(scene, statement, way, asked)?;
    }
    Ok(())
}

#[cycle(walking)]
fn walk_one(
    scene: Scene<'_>,
    statement: &TypedStmt,
    way: &mut Way,
    asked: &mut Ranges,
) -> Result<(), AllocError> {
    match statement {
        TypedStmt::Set(name, expr) => {
            let value = value(expr, &way.ranges);
            give(name, value, way)
        }
        TypedStmt::SetElement(name, _, _, _, expr) => {
            ask(name.as_str(), value(expr, &way.ranges), asked)
        }
        TypedStmt::If(branches, other) => {
            let mut ways = Vec::new(scene.alloc);
            walk_branches(scene, branches, other, &mut ways, way, asked)
        }
        TypedStmt::Case(selector, arms, other) => {
            let selection = Selection {
                selected: value(selector, &way.ranges),
                arms,
                other,
            };
            let mut ways = Vec::new(scene.alloc);
            walk_arms(scene, selection, &mut ways, way, asked)
        }
        TypedStmt::For(counting, body) => walk_for(scene, counting, body, way, asked),
    }
}

// The walk through a list on the last of ways.
#[cycle(walking)]
fn walk_last(
    scene: Scene<'_>,
    list: &[TypedStmt],
    ways: &mut Vec<Way>,
    asked: &mut Ranges,
) -> Result<(), AllocError> {
    match ways.last_mut() {
        Some(way) => walk(scene, list, way, asked),
        None => Ok(()),
    }
}

// IF: each condition where the earlier ones fail. The ways through branches are added.
#[cycle(walking)]
fn walk_branches(
    scene: Scene<'_>,
    branches: &[TypedBranch],
    other: &[TypedStmt],
    ways: &mut Vec<Way>,
    way: &mut Way,
    asked: &mut Ranges,
) -> Result<(), AllocError> {
    for branch in branches {
        let condition = value(&branch.condition, &way.ranges);
        if !scene.skips || may_hold(condition) {
            add_part(&branch.condition, way, ways)?;
            walk_last(scene, &branch.body, ways, asked)?;
        }
        if scene.skips && !may_fail(condition) {
            return only_ways(scene.names, ways, way);
        }
        narrow_way(&branch.condition, false, way)?;
    }
    walk(scene, other, way, asked)?;
    join_ways(scene.names, ways.as_slice(), way)
}

// CASE: an arm where the selector may have one of its labels. The ways through arms are added.
#[cycle(walking)]
fn walk_arms(
    scene: Scene<'_>,
    selection: Selection<'_>,
    ways: &mut Vec<Way>,
    way: &mut Way,
    asked: &mut Ranges,
) -> Result<(), AllocError> {
    for arm in selection.arms {
        if !scene.skips || may_have(&arm.labels, selection.selected) {
            add_way(way, ways)?;
            walk_last(scene, &arm.body, ways, asked)?;
        }
        if scene.skips && always_has(&arm.labels, selection.selected) {
            return only_ways(scene.names, ways, way);
        }
    }
    walk(scene, selection.other, way, asked)?;
    join_ways(scene.names, ways.as_slice(), way)
}

// FOR: its body once for all iterations, which begin with the rows of the variables that it assigns.
#[cycle(walking)]
fn walk_for(
    scene: Scene<'_>,
    counting: &Counting,
    body: &[TypedStmt],
    way: &mut Way,
    asked: &mut Ranges,
) -> Result<(), AllocError> {
    let first = value(&counting.first, &way.ranges);
    let last = value(&counting.last, &way.ranges);
    let iterations = most_iterations(first, last, counting.step);
    if iterations == 0 {
        return Ok(());
    }
    let own = taken(first, last, counting.step, iterations);
    let names = names_assigned(scene.alloc, body)?;
    let before = settle_and_give(scene, &names, &counting.variable, own, way, asked)?;
    walk(scene, body, way, asked)?;
    let left = left_with(first, last, counting.step, iterations, before);
    settle_and_give(scene, &names, &counting.variable, left, way, asked)?;
    Ok(())
}
