//! Whether a round has enlarged anything.

ghost use Rattle.std.specs.Prelude.{◌≡◌, map};
ghost use Rattle.fb_find_ranges.specs.Sameness.{same_lines, same_all};
ghost use Rattle.fb_find_ranges.specs.Views.{line_of, lined_in};

use crate::rows::{LeafRows, Row};
use fb_ranges::is_same;
use std::rc::Rc;

/// The ranges of two rows of each number are the same.
pub(crate) fn same_rows(some: &[Row], others: &[Row]) -> bool
    ensures { result ≡ same_lines (map line_of some.now) (map line_of others.now) }
{
    if some.len() != others.len() {
        return false;
    }
    for index in 0..some.len() {
        if !is_same(some[index].range, others[index].range) {
            return false;
        }
    }
    true
}

/// So it is at all leaves.
pub(crate) fn are_same(some: &[Rc<LeafRows<'_>>], others: &[Rc<LeafRows<'_>>]) -> bool
    ensures { result ≡ same_all (map lined_in some.now) (map lined_in others.now) }
{
    if some.len() != others.len() {
        return false;
    }
    for index in 0..some.len() {
        let rows = some[index].rows.as_slice();
        if !same_rows(rows, others[index].rows.as_slice()) {
            return false;
        }
    }
    true
}
