//! Ways through an algorithm, of which each touches a few variables.

use crate::told::Told;
use fb_ranges_intervals::Interval;
use indexmap::IndexMap;
use st_types::VariableName;
use std::alloc::Global;

/// What an examination of one way finds: the variables that it may touch, their ranges at its end in this order, and what is told of it.
#[derive(Drop)]
pub(crate) struct Way<'a> {
    pub names: Vec<&'a VariableName>,
    pub ends: Vec<Interval>,
    pub told: Told,
}

/// The smallest range that holds those of a variable at the ends of ways, and how many ways there were with the last that touched it.
#[derive(Clone, Copy)]
pub(crate) struct Reached {
    pub range: Interval,
    pub ways: usize,
}

/// What ways have come to: each variable that one of them touched, how many they are, and what is told of all.
#[derive(Drop)]
pub(crate) struct Ways {
    pub alloc: Global,
    pub rows: IndexMap<String, Reached>,
    pub count: usize,
    pub told: Told,
}
