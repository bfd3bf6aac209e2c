//! What algorithms ask of the ranges of their variables.

use crate::walk::walk;
use crate::way::{Scene, Way, first_way, give};
use fb_ranges::{Ranges, reset};
use fb_ranges_intervals::{Interval, joined};
use st_types::{Algo, VariableName};
use std::alloc::AllocError;

/// A range is asked to hold another too.
pub(crate) fn ask(name: &str, range: Interval, asked: &mut Ranges) -> Result<(), AllocError> {
    let row = asked.find(name);
    asked.insert(name, joined(row, range))
}

// The ranges of these variables are asked to hold what they were given on a way, and they have their rows.
fn settle(
    scene: Scene<'_>,
    names: &[&VariableName],
    way: &mut Way,
    asked: &mut Ranges,
) -> Result<(), AllocError> {
    for name in names {
        if let Some(value) = way.given.swap_remove(name.as_str()) {
            ask(name.as_str(), value, asked)?;
        }
    }
    reset(names, scene.rows, &mut way.ranges)
}

/// So it is, and then a variable gets a value. Answers what it had before.
pub(crate) fn settle_and_give(
    scene: Scene<'_>,
    names: &[&VariableName],
    variable: &VariableName,
    value: Interval,
    way: &mut Way,
    asked: &mut Ranges,
) -> Result<Interval, AllocError> {
    settle(scene, names, way, asked)?;
    let before = way.ranges.find_at(variable);
    give(variable, value, way)?;
    Ok(before)
}

// The ranges are asked to hold what variables were given on a way.
fn ask_given(way: &Way, asked: &mut Ranges) -> Result<(), AllocError> {
    for index in 0..way.given.len() {
        let Some((name, value)) = way.given.get_index(index) else {
            return Ok(());
        };
        ask(name.as_str(), *value, asked)?;
    }
    Ok(())
}

// All that an algorithm asks on a way.
fn ask_on(
    scene: Scene<'_>,
    algo: &Algo,
    way: &mut Way,
    asked: &mut Ranges,
) -> Result<(), AllocError> {
    walk(scene, &algo.statements, way, asked)?;
    ask_given(way, asked)
}

/// All that an algorithm asks.
pub(crate) fn ask_all(scene: Scene<'_>, algo: &Algo, asked: &mut Ranges) -> Result<(), AllocError> {
    let mut way = first_way(scene)?;
    ask_on(scene, algo, &mut way, asked)
}
