//! Rows of variables.

ghost use Rattle.std.specs.Prelude.{◌≡◌, length};

use fb_ranges_intervals::Interval;
use indexmap::IndexSet;
use std::alloc::Global;
use std::rc::Rc;

/// The ranges of a block's variables, by their names. A variable without one has all numbers of LINT.
///
/// A copy shares the names, for as long as no further one comes in.
#[derive(Drop)]
pub struct Ranges {
    pub(crate) alloc: Global,
    pub(crate) names: Rc<IndexSet<String>>,
    /// In the order of the names.
    pub(crate) rows: Vec<Interval>,
    ghost even: { length names.value.keys ≡ length rows.items },
}
