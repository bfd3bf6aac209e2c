//! Leaves whose blocks and rows are alike: what the algorithms of one ask, those of the other ask.

ghost use Rattle.std.specs.Prelude.{◌≡◌, ◌≤◌, true, map, length, IfSome};
ghost use Rattle.fb_flat.specs.Leaves.{kind_of};
ghost use Rattle.fb_find_ranges.specs.Views.{line_of, linked_in, AreKept, AreLinked, IsKept, IsKind, IsLike};

use crate::rows::{LeafRows, Row};
use fb_flat::{Body, Leaf};
use fb_ranges::is_same;
use fb_types_same::is_alike;
use std::rc::Rc;

/// How many leaves are looked at: of those that were made last, and of those of one block.
const LOOKED_BACK: usize = 32;

// Whether two rows are of one name, and have the same type and range.
fn alike_row(one: &Row, other: &Row) -> bool
    ensures { result ≡ true → line_of one.now ≡ line_of other.now }
{
    if !is_same(one.range, other.range) {
        return false;
    }
    if one.of_type != other.of_type {
        return false;
    }
    one.name == other.name
}

// Whether two lists of rows are the same.
fn alike_rows(some: &[Row], others: &[Row]) -> bool
    ensures { result ≡ true → map line_of some.now ≡ map line_of others.now }
{
    if some.len() != others.len() {
        return false;
    }
    for at in 0..some.len() {
        if !alike_row(&some[at], &others[at]) {
            return false;
        }
    }
    true
}

// Whether the blocks of two leaves are the same. Blocks at one place in memory are, but only their parts prove it.
fn alike_block(one: &Leaf, other: &Leaf) -> bool
    ensures { result ≡ true → kind_of one.now.body ≡ kind_of other.now.body }
{
    match (&one.body, &other.body) {
        (Body::Basic(block), Body::Basic(like)) => {
            Rc::ptr_eq(block, like) && is_alike(block, like)
        }
        _ => false,
    }
}

/// The number of one of the leaves that were made last whose block is that of this leaf; the number of all where there is none.
pub(crate) fn like(before: &[Rc<LeafRows<'_>>], leaf: &Leaf) -> usize
    ensures within { result ≤ length before.now }
    ensures kind { IsKind (map linked_in before.now) result (kind_of leaf.now.body) }
{
    for back in 1..=before.len().min(LOOKED_BACK) {
        let at = before.len() - back;
        if alike_block(before[at].leaf, leaf) {
            return at;
        }
    }
    before.len()
}

/// A leaf that was made of the same block under the same rows, by the number of one of the same block.
pub(crate) fn alike<'a, 'b>(
    before: &'b [Rc<LeafRows<'a>>],
    like: usize,
    leaf: &Leaf,
    rows: &[Row],
) -> Option<&'b LeafRows<'a>>
    requires kept { AreKept before.now }
    requires links { AreLinked (map linked_in before.now) }
    requires kind { IsKind (map linked_in before.now) like (kind_of leaf.now.body) }
    ensures { IfSome result (λ made. IsKept made.now × IsLike made.now (kind_of leaf.now.body) rows.now) }
{
    let mut at = like;
    for _ in 0..LOOKED_BACK {
        if before.len() <= at {
            return None;
        }
        let made = &before[at];
        if alike_rows(made.rows.as_slice(), rows) {
            return Some(made.as_ref());
        }
        at = made.like;
    }
    None
}
