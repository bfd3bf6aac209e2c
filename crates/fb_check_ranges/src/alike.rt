//! Blocks that are alike, under rows that are alike: what is examined of one holds of the other.

ghost use Rattle.std.specs.Prelude.{◌≡◌, true};
ghost use Rattle.fb_ranges.specs.Views.{spans_of};
ghost use Rattle.fb_types_blocks.specs.Views.{block_of};

use fb_ranges::Ranges;
use fb_types_blocks::Block;
use fb_types_same::is_alike;
use std::rc::Rc;

/// Whether two blocks are the same, and the ranges of their variables. Blocks at one place in memory are the same, but only their parts prove it: others
/// are not looked at. (Not said: that it ever says so.)
pub fn are_alike(one: &Rc<Block>, rows: &Ranges, other: &Rc<Block>, others: &Ranges) -> bool
    ensures block { result ≡ true → block_of one.now.value ≡ block_of other.now.value }
    ensures rows { result ≡ true → spans_of rows.now ≡ spans_of others.now }
{
    Rc::ptr_eq(one, other) && rows.is_like(others) && is_alike(one, other)
}
