//! One round.

use crate::ask::ask_all;
use crate::feed::{Near, Numbers, fed};
use crate::grow::{grown, shrunk};
use crate::line::{LeafLines, Line, first_table, table};
use crate::way::Scene;
use fb_check_ranges::source_named;
use fb_flat::{Body, Leaf};
use fb_ranges::{Ranges, is_same};
use fb_types_blocks::Block;
use std::alloc::{AllocError, Global};

/// What ranges do in a round.
#[derive(Clone, Copy)]
pub(crate) enum Turn {
    /// They grow by what arms ask that can run.
    Grow,
    /// They shrink to what these ask.
    Shrink,
    /// They grow by what all arms ask, as all have to be clear.
    Last,
}

// A round: what ranges do in it, and the leaves with their tables before it.
#[derive(Clone, Copy)]
struct Round<'a> {
    turn: Turn,
    near: Near<'a>,
}

/// What stays in all rounds: the leaves of a device with their numbers, and the landmarks of each.
#[derive(Clone, Copy)]
pub(crate) struct Ground<'a> {
    pub alloc: Global,
    pub leaves: &'a [&'a Leaf],
    pub numbers: &'a Numbers,
    pub landmarks: &'a [Vec<i64>],
}

// The names of lines.
fn names_of<'a>(alloc: Global, lines: &[Line<'a>]) -> Result<Vec<&'a str>, AllocError> {
    let mut names = Vec::new(alloc);
    for line in lines {
        names.push(line.name)?;
    }
    Ok(names)
}

// Adds what the algorithms of a block ask.
fn ask_block(scene: Scene<'_>, block: &Block, asked: &mut Ranges) -> Result<(), AllocError> {
    for index in 0..block.procedures.len() {
        let Some((_, algo)) = block.procedures.get_index(index) else {
            return Ok(());
        };
        ask_all(scene, algo, asked)?;
    }
    Ok(())
}

// Adds what the algorithms of a leaf ask, under its table.
fn ask_leaf(
    alloc: Global,
    turn: Turn,
    leaf: &LeafLines,
    rows: &Ranges,
    asked: &mut Ranges,
) -> Result<(), AllocError> {
    let names = names_of(alloc, leaf.lines.as_slice())?;
    let scene = Scene {
        alloc,
        rows,
        names: names.as_slice(),
        skips: !matches!(turn, Turn::Last),
    };
    match &leaf.leaf.body {
        Body::Basic(block) => ask_block(scene, block, asked),
        Body::Served(_) => Ok(()),
    }
}

// A line after a round.
fn next_line<'a>(
    round: Round<'_>,
    leaf: &Leaf,
    asked: &Ranges,
    landmarks: &[i64],
    line: Line<'a>,
) -> Line<'a> {
    let source = source_named(leaf.inputs.as_slice(), line.name);
    let range = fed(round.near, source, asked.find(line.name));
    match round.turn {
        Turn::Grow | Turn::Last => grown(line, range, landmarks),
        Turn::Shrink => shrunk(line, range),
    }
}

// A line changes by a round; whether its range stays.
fn change_line(
    round: Round<'_>,
    leaf: &Leaf,
    asked: &Ranges,
    landmarks: &[i64],
    line: &mut Line,
) -> bool {
    let changed = next_line(round, leaf, asked, landmarks, *line);
    let is_still = is_same(line.range, changed.range);
    *line = changed;
    is_still
}

// The lines of a leaf change by what is asked of them; whether their ranges stay.
fn change_lines(
    round: Round<'_>,
    leaf: &Leaf,
    asked: &Ranges,
    landmarks: &[i64],
    lines: &mut Vec<Line>,
) -> bool {
    let mut are_still = true;
    for index in 0..lines.len() {
        if let Some(line) = lines.get_mut(index) {
            if !change_line(round, leaf, asked, landmarks, line) {
                are_still = false;
            }
        }
    }
    are_still
}

// So they do, after what their algorithms ask is added.
fn change_asking(
    alloc: Global,
    round: Round<'_>,
    rows: &Ranges,
    landmarks: &[i64],
    asked: &mut Ranges,
    leaf: &mut LeafLines,
) -> Result<bool, AllocError> {
    ask_leaf(alloc, round.turn, leaf, rows, asked)?;
    Ok(change_lines(round, leaf.leaf, asked, landmarks, &mut leaf.lines))
}

// They change by what variables have at first, and what algorithms ask.
fn change_leaf(
    alloc: Global,
    round: Round<'_>,
    rows: &Ranges,
    landmarks: &[i64],
    leaf: &mut LeafLines,
) -> Result<bool, AllocError> {
    let mut asked = first_table(alloc, leaf.lines.as_slice())?;
    change_asking(alloc, round, rows, landmarks, &mut asked, leaf)
}

// The lines of leaves change, by the tables of all; whether their ranges stay.
fn change_all(
    ground: Ground<'_>,
    round: Round<'_>,
    all: &mut Vec<LeafLines>,
) -> Result<bool, AllocError> {
    let mut are_still = true;
    for index in 0..all.len() {
        let (Some(rows), Some(landmarks)) = (
            round.near.tables.get(index),
            ground.landmarks.get(index),
        ) else {
            return Ok(are_still);
        };
        if let Some(leaf) = all.get_mut(index) {
            if !change_leaf(ground.alloc, round, rows, landmarks.as_slice(), leaf)? {
                are_still = false;
            }
        }
    }
    Ok(are_still)
}

// Adds the tables of leaves.
fn add_tables(
    alloc: Global,
    all: &[LeafLines],
    tables: &mut Vec<Ranges>,
) -> Result<(), AllocError> {
    for leaf in all {
        tables.push(table(alloc, leaf.lines.as_slice())?)?;
    }
    Ok(())
}

// The lines of leaves change, after their tables are added to none; whether their ranges stay.
fn change_with(
    ground: Ground<'_>,
    turn: Turn,
    tables: &mut Vec<Ranges>,
    all: &mut Vec<LeafLines>,
) -> Result<bool, AllocError> {
    add_tables(ground.alloc, all.as_slice(), tables)?;
    let near = Near {
        leaves: ground.leaves,
        tables: tables.as_slice(),
        numbers: ground.numbers,
    };
    change_all(ground, Round { turn, near }, all)
}

/// The lines of leaves change by a round; whether their ranges stay.
pub(crate) fn change(
    ground: Ground<'_>,
    turn: Turn,
    all: &mut Vec<LeafLines>,
) -> Result<bool, AllocError> {
    let mut tables = Vec::new(ground.alloc);
    change_with(ground, turn, &mut tables, all)
}
