//! What rows RANGE say beside what variables hold.

use fb_cert::Certificate;
use fb_check_ranges::{first_range, leaf_row, source_named, start_range};
use fb_flat::{Flat, Leaf, Source};
use fb_ranges::Interval;
use fb_types_blocks::{Block, Variable};
use fbr_leaves::{block_in, leaf_at, place_at};
use std::alloc::{AllocError, Global};

/// The row of a variable, the numbers of its type, and what it begins with.
#[derive(Clone, Copy)]
pub struct RangeStart<'a> {
    pub path: &'a str,
    pub row: Interval,
    pub lowest: i64,
    pub highest: i64,
    pub first: Interval,
}

/// A data output, the leaf that has it, and what it may have.
#[derive(Clone, Copy)]
pub struct Linked<'a> {
    pub path: &'a str,
    pub port: &'a str,
    pub row: Interval,
}

/// The row of a data input, and the output that is connected to it.
#[derive(Clone, Copy)]
pub struct RangeLink<'a> {
    pub path: &'a str,
    pub row: Interval,
    pub source: Option<Linked<'a>>,
}

// The variable of a block of this name.
fn variable_named<'a>(block: &'a Block, name: &str) -> Option<&'a Variable> {
    block
        .face
        .inputs
        .get(name)
        .or(block.face.outputs.get(name))
        .or(block.internals.get(name))
}

// What a variable of a leaf holds at first: of an input, a constant that it always has.
fn begins_with(leaf: &Leaf, block: &Block, name: &str, variable: &Variable) -> Interval {
    if block.face.inputs.contains_key(name) {
        first_range(source_named(leaf.inputs.as_slice(), name), variable)
    } else {
        start_range(variable)
    }
}

/// What the row of a variable says, beside what it begins with.
pub fn range_start<'a>(
    alloc: Global,
    flat: &Flat,
    certificate: &Certificate,
    path: &'a str,
) -> Result<Option<RangeStart<'a>>, AllocError> {
    let Some((leaf, name)) = place_at(flat, path) else {
        return Ok(None);
    };
    let Some(block) = block_in(leaf) else {
        return Ok(None);
    };
    let Some(variable) = variable_named(block, name) else {
        return Ok(None);
    };
    Ok(Some(RangeStart {
        path,
        row: leaf_row(alloc, certificate, leaf, name)?,
        lowest: variable.of_type.lowest(),
        highest: variable.of_type.highest(),
        first: begins_with(leaf, block, name, variable),
    }))
}

// What a data output of the leaf of a path may have.
fn source_at<'a>(
    alloc: Global,
    flat: &Flat,
    certificate: &Certificate,
    path: &'a str,
    port: &'a str,
) -> Result<Option<Linked<'a>>, AllocError> {
    let Some(leaf) = leaf_at(flat, path) else {
        return Ok(None);
    };
    Ok(Some(Linked {
        path,
        port,
        row: leaf_row(alloc, certificate, leaf, port)?,
    }))
}

/// What the row of a data input says, beside what is connected to it may have.
pub fn range_link<'a>(
    alloc: Global,
    flat: &'a Flat,
    certificate: &Certificate,
    path: &'a str,
) -> Result<Option<RangeLink<'a>>, AllocError> {
    let Some((leaf, name)) = place_at(flat, path) else {
        return Ok(None);
    };
    let row = leaf_row(alloc, certificate, leaf, name)?;
    let source = match source_named(leaf.inputs.as_slice(), name) {
        Some(Source::Output(from, port)) => {
            source_at(alloc, flat, certificate, from.as_str(), port.as_str())?
        }
        _ => None,
    };
    Ok(Some(RangeLink { path, row, source }))
}
