//! Variables with the ranges that are proposed for them.

use fb_flat::Leaf;
use fb_ranges::Ranges;
use fb_ranges_intervals::Interval;
use fb_words::ElemType;
use std::alloc::{AllocError, Global};

/// A variable, what it has at first, and the range that is proposed for it.
#[derive(Clone, Copy)]
pub(crate) struct Line<'a> {
    pub name: &'a str,
    pub of_type: ElemType,
    pub first: Interval,
    pub range: Interval,
    /// Whether the range was given and stays.
    pub is_given: bool,
    /// In how many rounds its low end and its high end have grown.
    pub lows: u8,
    pub highs: u8,
}

/// A leaf with its variables. A service has none.
#[derive(Drop)]
pub(crate) struct LeafLines<'a> {
    pub leaf: &'a Leaf,
    pub lines: Vec<Line<'a>>,
}

/// The ranges of lines by their names.
pub(crate) fn table(alloc: Global, lines: &[Line]) -> Result<Ranges, AllocError> {
    let mut ranges = Ranges::new(alloc)?;
    for line in lines {
        ranges.insert(line.name, line.range)?;
    }
    Ok(ranges)
}

/// What their variables have at first, by their names.
pub(crate) fn first_table(alloc: Global, lines: &[Line]) -> Result<Ranges, AllocError> {
    let mut ranges = Ranges::new(alloc)?;
    for line in lines {
        ranges.insert(line.name, line.first)?;
    }
    Ok(ranges)
}
