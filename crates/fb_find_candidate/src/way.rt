//! Ways through an algorithm: what variables have on them, and what they were given.

use fb_ranges::{Ranges, copied, narrow};
use fb_ranges_intervals::{Interval, joined};
use indexmap::IndexMap;
use st_types::{TypedExpr, VariableName};
use std::alloc::{AllocError, Global};

/// What algorithms are walked under: the rows of a leaf's variables, their names, and whether arms that cannot run are left out.
#[derive(Clone, Copy)]
pub(crate) struct Scene<'a> {
    pub alloc: Global,
    pub rows: &'a Ranges,
    pub names: &'a [&'a str],
    pub skips: bool,
}

/// The ranges of variables on a way, and of what those have that it assigned.
#[derive(Drop)]
pub(crate) struct Way {
    pub ranges: Ranges,
    pub given: IndexMap<String, Interval>,
}

/// The way before anything is assigned.
pub(crate) fn first_way(scene: Scene<'_>) -> Result<Way, AllocError> {
    Ok(Way {
        ranges: copied(scene.rows)?,
        given: IndexMap::new(scene.alloc),
    })
}

// The same way once more.
fn same_way(way: &Way) -> Result<Way, AllocError> {
    Ok(Way {
        ranges: copied(&way.ranges)?,
        given: way.given.clone()?,
    })
}

// Notes what a variable was given.
fn note(
    name: &String,
    value: Interval,
    given: &mut IndexMap<String, Interval>,
) -> Result<(), AllocError> {
    given.insert(name.clone()?, value)?;
    Ok(())
}

/// A variable gets a value.
pub(crate) fn give(
    variable: &VariableName,
    value: Interval,
    way: &mut Way,
) -> Result<(), AllocError> {
    way.ranges.insert_at(variable, value)?;
    note(&variable.name, value, &mut way.given)
}

// What two ranges have in common; the first, where that is nothing.
fn cut(r: Interval, s: Interval) -> Interval {
    let low = r.low.max(s.low);
    let high = r.high.min(s.high);
    if high < low {
        r
    } else {
        Interval { low, high }
    }
}

// What a variable was given is no more than it has.
fn trim_one(index: usize, ranges: &Ranges, given: &mut IndexMap<String, Interval>) {
    let Some((name, value)) = given.get_index(index) else {
        return;
    };
    let now = cut(*value, ranges.find(name.as_str()));
    if let Some(value) = given.get_index_mut(index) {
        *value = now;
    }
}

// So it is for all variables.
fn trim(ranges: &Ranges, given: &mut IndexMap<String, Interval>) {
    for index in 0..given.len() {
        trim_one(index, ranges, given);
    }
}

/// The part of a way where a condition holds, or fails.
pub(crate) fn narrow_way(
    condition: &TypedExpr,
    holds: bool,
    way: &mut Way,
) -> Result<(), AllocError> {
    narrow(condition, holds, &mut way.ranges)?;
    trim(&way.ranges, &mut way.given);
    Ok(())
}

/// Adds a copy of a way to others.
pub(crate) fn add_way(way: &Way, ways: &mut Vec<Way>) -> Result<(), AllocError> {
    ways.push(same_way(way)?)?;
    Ok(())
}

// The part of the last of ways where a condition holds.
fn narrow_last(condition: &TypedExpr, ways: &mut Vec<Way>) -> Result<(), AllocError> {
    match ways.last_mut() {
        Some(way) => narrow_way(condition, true, way),
        None => Ok(()),
    }
}

/// Adds the part of a way where a condition holds to others.
pub(crate) fn add_part(
    condition: &TypedExpr,
    way: &Way,
    ways: &mut Vec<Way>,
) -> Result<(), AllocError> {
    add_way(way, ways)?;
    narrow_last(condition, ways)
}

// What was given on another way too.
fn join_given(other: &Way, way: &mut Way) -> Result<(), AllocError> {
    for index in 0..other.given.len() {
        let Some((name, value)) = other.given.get_index(index) else {
            return Ok(());
        };
        let all = match way.given.get(name.as_str()) {
            Some(own) => joined(*own, *value),
            None => *value,
        };
        note(name, all, &mut way.given)?;
    }
    Ok(())
}

// One way or another.
fn join_way(names: &[&str], other: &Way, way: &mut Way) -> Result<(), AllocError> {
    for name in names {
        let all = joined(way.ranges.find(*name), other.ranges.find(*name));
        way.ranges.insert(*name, all)?;
    }
    join_given(other, way)
}

/// One of all these ways.
pub(crate) fn join_ways(names: &[&str], others: &[Way], way: &mut Way) -> Result<(), AllocError> {
    for other in others {
        join_way(names, other, way)?;
    }
    Ok(())
}

/// One of these ways alone.
pub(crate) fn only_ways(
    names: &[&str],
    others: &mut Vec<Way>,
    way: &mut Way,
) -> Result<(), AllocError> {
    match others.pop() {
        Some(last) => {
            *way = last;
            join_ways(names, others.as_slice(), way)
        }
        None => Ok(()),
    }
}
