//! Rows RANGE of all variables that may be clear.

use crate::feed::{Numbers, add_numbers};
use crate::landmark::landmarks;
use crate::line::{LeafLines, Line};
use crate::round::{Ground, Turn, change};
use fb_cert::{Certificate, Row};
use fb_check_ranges::{first_range, leaves_of, source_named, start_range};
use fb_flat::{Body, Flat, FlatDevice, Leaf, joined};
use fb_ranges_intervals::{Interval, whole};
use fb_types_blocks::{Block, Variable, Variables};
use fb_words::ElemType;
use indexmap::IndexMap;
use std::alloc::{AllocError, Global};

/// The most rounds in which ranges grow.
const GROWING: usize = 200;

/// The most rounds in which they shrink.
const SHRINKING: usize = 20;

// What a variable has at first.
fn range_first(leaf: &Leaf, block: &Block, name: &str, variable: &Variable) -> Interval {
    if variable.of_type == ElemType::Bool {
        return whole(ElemType::Bool);
    }
    if block.face.inputs.contains_key(name) {
        first_range(source_named(leaf.inputs.as_slice(), name), variable)
    } else {
        start_range(variable)
    }
}

// The line of a variable, whose range is that in `given` where it has one there.
fn first_line<'a>(
    alloc: Global,
    leaf: &Leaf,
    block: &Block,
    given: &Certificate,
    name: &'a str,
    variable: &Variable,
) -> Result<Line<'a>, AllocError> {
    let first = range_first(leaf, block, name, variable);
    let text = joined(alloc, leaf.path.as_str(), name)?;
    let (range, is_given) = match given.range(text.as_str()) {
        Some(range) => (range, true),
        None => (first, false),
    };
    Ok(Line {
        name,
        of_type: variable.of_type,
        first,
        range,
        is_given,
        lows: 0,
        highs: 0,
    })
}

// Adds the lines of variables.
fn add_lines<'a>(
    alloc: Global,
    leaf: &Leaf,
    block: &Block,
    variables: &'a Variables,
    given: &Certificate,
    lines: &mut Vec<Line<'a>>,
) -> Result<(), AllocError> {
    for index in 0..variables.len() {
        let Some((name, variable)) = variables.get_index(index) else {
            return Ok(());
        };
        lines.push(first_line(alloc, leaf, block, given, name.as_str(), variable)?)?;
    }
    Ok(())
}

// Adds those of a block.
fn add_block<'a>(
    alloc: Global,
    leaf: &Leaf,
    block: &'a Block,
    given: &Certificate,
    lines: &mut Vec<Line<'a>>,
) -> Result<(), AllocError> {
    add_lines(alloc, leaf, block, &block.face.inputs, given, lines)?;
    add_lines(alloc, leaf, block, &block.face.outputs, given, lines)?;
    add_lines(alloc, leaf, block, &block.internals, given, lines)
}

// The lines of a leaf at first.
fn first_lines<'a>(
    alloc: Global,
    leaf: &'a Leaf,
    given: &Certificate,
) -> Result<LeafLines<'a>, AllocError> {
    let mut lines = Vec::new(alloc);
    if let Body::Basic(block) = &leaf.body {
        add_block(alloc, leaf, block, given, &mut lines)?;
    }
    Ok(LeafLines { leaf, lines })
}

// Adds those of leaves.
fn add_first<'a>(
    alloc: Global,
    leaves: &[&'a Leaf],
    given: &Certificate,
    all: &mut Vec<LeafLines<'a>>,
) -> Result<(), AllocError> {
    for leaf in leaves {
        all.push(first_lines(alloc, *leaf, given)?)?;
    }
    Ok(())
}

// The landmarks of leaves.
fn all_landmarks(alloc: Global, leaves: &[&Leaf]) -> Result<Vec<Vec<i64>>, AllocError> {
    let mut all = Vec::new(alloc);
    for leaf in leaves {
        all.push(landmarks(alloc, *leaf)?)?;
    }
    Ok(all)
}

// The lines change by rounds of a kind, until their ranges stay, but at most so many.
fn change_often(
    ground: Ground<'_>,
    turn: Turn,
    most: usize,
    all: &mut Vec<LeafLines>,
) -> Result<(), AllocError> {
    for _ in 0..most {
        if change(ground, turn, all)? {
            return Ok(());
        }
    }
    Ok(())
}

// Adds the row of a variable.
fn add_row(
    alloc: Global,
    path: &str,
    line: &Line,
    certificate: &mut Certificate,
) -> Result<(), AllocError> {
    if line.of_type == ElemType::Bool {
        return Ok(());
    }
    let text = joined(alloc, path, line.name)?;
    certificate.add(alloc, Row::Range(text.as_str(), line.range))?;
    Ok(())
}

// Adds the rows of leaves.
fn add_rows(
    alloc: Global,
    all: &[LeafLines],
    certificate: &mut Certificate,
) -> Result<(), AllocError> {
    for leaf in all {
        for line in &leaf.lines {
            add_row(alloc, leaf.leaf.path.as_str(), line, certificate)?;
        }
    }
    Ok(())
}

// Adds the lines of leaves at first, and the rows of these after all rounds.
fn add_changed<'a>(
    ground: Ground<'a>,
    given: &Certificate,
    all: &mut Vec<LeafLines<'a>>,
    certificate: &mut Certificate,
) -> Result<(), AllocError> {
    add_first(ground.alloc, ground.leaves, given, all)?;
    change_often(ground, Turn::Grow, GROWING, all)?;
    change_often(ground, Turn::Shrink, SHRINKING, all)?;
    change_often(ground, Turn::Last, GROWING, all)?;
    add_rows(ground.alloc, all.as_slice(), certificate)
}

// Adds those of a device with these leaves, of which these are the numbers.
fn add_leaves<'a>(
    alloc: Global,
    leaves: &'a [&'a Leaf],
    numbers: &'a Numbers,
    given: &Certificate,
    certificate: &mut Certificate,
) -> Result<(), AllocError> {
    let landmarks = all_landmarks(alloc, leaves)?;
    let ground = Ground {
        alloc,
        leaves,
        numbers,
        landmarks: landmarks.as_slice(),
    };
    let mut all = Vec::new(alloc);
    add_changed(ground, given, &mut all, certificate)
}

// Adds those of a device with these leaves, whose numbers are added to none.
fn add_numbered(
    alloc: Global,
    leaves: &[&Leaf],
    numbers: &mut Numbers,
    given: &Certificate,
    certificate: &mut Certificate,
) -> Result<(), AllocError> {
    add_numbers(alloc, leaves, numbers)?;
    add_leaves(alloc, leaves, numbers, given, certificate)
}

// Adds those of a device.
fn add_device(
    alloc: Global,
    device: &FlatDevice,
    given: &Certificate,
    certificate: &mut Certificate,
) -> Result<(), AllocError> {
    let leaves = leaves_of(alloc, device.resources.as_slice())?;
    let mut numbers = IndexMap::new(alloc);
    add_numbered(alloc, leaves.as_slice(), &mut numbers, given, certificate)
}

// Adds those of devices.
fn add_devices(
    alloc: Global,
    flat: &Flat,
    given: &Certificate,
    certificate: &mut Certificate,
) -> Result<(), AllocError> {
    for device in &flat.devices {
        add_device(alloc, device, given, certificate)?;
    }
    Ok(())
}

/// Rows RANGE of all variables that are not BOOL, under which all may be clear; variables that have a row in `given` keep it.
pub fn candidate(
    alloc: Global,
    flat: &Flat,
    given: &Certificate,
) -> Result<Certificate, AllocError> {
    let mut certificate = Certificate::new(alloc);
    match add_devices(alloc, flat, given, &mut certificate) {
        Ok(()) => Ok(certificate),
        Err(error) => {
            certificate.let_go();
            Err(error)
        }
    }
}
