//! What outputs give the inputs that take them.

use fb_flat::{Body, Leaf, Source};
use fb_ranges::Ranges;
use fb_ranges_intervals::{Interval, joined, whole};
use fb_types_services::Service;
use fb_words::ElemType;
use indexmap::IndexMap;
use std::alloc::{AllocError, Global};

/// The numbers of leaves by their paths.
pub(crate) type Numbers = IndexMap<String, usize>;

/// The leaves of a device, their tables and their numbers.
#[derive(Clone, Copy)]
pub(crate) struct Near<'a> {
    pub leaves: &'a [&'a Leaf],
    pub tables: &'a [Ranges],
    pub numbers: &'a Numbers,
}

// Adds the number of a path that has none.
fn add_number(
    alloc: Global,
    path: &str,
    index: usize,
    numbers: &mut Numbers,
) -> Result<(), AllocError> {
    if !numbers.contains_key(path) {
        numbers.insert(String::from_str(alloc, path)?, index)?;
    }
    Ok(())
}

/// Adds the number of each leaf to none; of leaves of one path that of the first.
pub(crate) fn add_numbers(
    alloc: Global,
    leaves: &[&Leaf],
    numbers: &mut Numbers,
) -> Result<(), AllocError> {
    for index in 0..leaves.len() {
        add_number(alloc, leaves[index].path.as_str(), index, numbers)?;
    }
    Ok(())
}

// All numbers of the type of a data port of a service.
fn port_range(service: &Service, name: &str) -> Interval {
    let of = match service.input(name) {
        Some(of) => Some(of),
        None => service.output(name),
    };
    whole(of.unwrap_or(ElemType::Lint))
}

// The range of an output of the leaf at a path.
fn output_range(near: Near<'_>, path: &str, name: &str) -> Option<Interval> {
    let index = *near.numbers.get(path)?;
    let leaf = near.leaves.get(index)?;
    let table = near.tables.get(index)?;
    match &leaf.body {
        Body::Basic(_) => Some(table.find(name)),
        Body::Served(service) => Some(port_range(service, name)),
    }
}

/// A range, and that of the output that it takes.
pub(crate) fn fed(near: Near<'_>, source: Option<&Source>, range: Interval) -> Interval {
    match source {
        Some(Source::Output(path, name)) => {
            match output_range(near, path.as_str(), name.as_str()) {
                Some(given) => joined(range, given),
                None => range,
            }
        }
        Some(Source::Number(_)) | Some(Source::Zeros(_, _)) | None => range,
    }
}
