//! Rows of leaves.

use fb_flat::Leaf;
use fb_ranges::Ranges;
use fb_ranges_intervals::Interval;
use fb_words::ElemType;
use std::rc::Rc;

/// A variable, and its range.
#[derive(Clone, Copy)]
pub(crate) struct Row<'a> {
    pub(crate) name: &'a str,
    pub(crate) of_type: ElemType,
    pub(crate) range: Interval,
    /// Where it stands among the variables of its leaf, from 0: a hint where to look for it, which no view shows.
    pub(crate) number: usize,
}

/// A leaf, the number of one before it with the same block (or its own), the rows of its variables in order (inputs, outputs, internal ones; a service
/// has none) and by their names, and what its algorithms ask under these. Leaves whose blocks and rows are alike share both tables.
#[derive(Drop)]
pub(crate) struct LeafRows<'a> {
    pub(crate) leaf: &'a Leaf,
    pub(crate) like: usize,
    pub(crate) rows: Vec<Row<'a>>,
    pub(crate) ranges: Rc<Ranges>,
    pub(crate) asked: Rc<Ranges>,
}
