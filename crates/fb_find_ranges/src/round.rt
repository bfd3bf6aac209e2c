//! One round.

ghost use Rattle.std.specs.Prelude.{◌≡◌, map, IfOk};
ghost use Rattle.fb_flat.specs.Leaves.{kind_of};
ghost use Rattle.fb_find_ranges.specs.Lines.{next_line, next_lined, next_round};
ghost use Rattle.fb_find_ranges.specs.Views.{AreKept, AreLinked, AreNear, IsKept, IsKind, leaf_in, line_of, lined_in, linked_in, tabled_in, tabled_of};

use crate::near::{Near, fed};
use crate::rows::{LeafRows, Row};
use crate::same::same_rows;
use crate::table::with_next_rows;
use crate::widen::stepped;
use fb_check_ranges::source_named;
use fb_ranges_intervals::joined;
use std::alloc::{AllocError, Global};
use std::rc::Rc;

// A row after a round.
fn next_row<'a>(
    round: u8,
    near: &Near,
    leaves: &[Rc<LeafRows<'_>>],
    leaf: &LeafRows,
    row: Row<'a>,
) -> Row<'a>
    requires near { AreNear (map leaf_in leaves.now) near.now }
    requires kept { IsKept leaf.now }
    ensures { line_of result ≡ next_line round (map tabled_in leaves.now) (tabled_of leaf.now) (line_of row.entry) }
{
    let name = row.name;
    let worked = joined(
        leaf.asked.find_near(name, row.number),
        leaf.ranges.find_near(name, row.number),
    );
    let source = source_named(leaf.leaf.inputs.as_slice(), name);
    let asked = fed(near, leaves, source, worked);
    Row {
        name,
        of_type: row.of_type,
        range: stepped(round, row.of_type, row.range, asked),
        number: row.number,
    }
}

// The rows of a leaf after a round.
fn next_rows<'a>(
    alloc: Global,
    round: u8,
    near: &Near,
    leaves: &[Rc<LeafRows<'_>>],
    leaf: &LeafRows<'a>,
) -> Result<Vec<Row<'a>>, AllocError>
    requires near { AreNear (map leaf_in leaves.now) near.now }
    requires kept { IsKept leaf.now }
    ensures { IfOk result (λ v. map line_of v.items ≡ map (next_line round (map tabled_in leaves.now) (tabled_of leaf.now)) (map line_of leaf.now.rows.items)) }
{
    let mut rows = Vec::new(alloc);
    for row in &leaf.rows {
        rows.push(next_row(round, near, leaves, leaf, *row))?;
    }
    Ok(rows)
}

// A leaf after a round, behind those before it: the same where none of its ranges has changed.
fn next_leaf<'a>(
    alloc: Global,
    round: u8,
    near: &Near,
    leaves: &[Rc<LeafRows<'_>>],
    before: &[Rc<LeafRows<'a>>],
    leaf: &Rc<LeafRows<'a>>,
) -> Result<Rc<LeafRows<'a>>, AllocError>
    requires near { AreNear (map leaf_in leaves.now) near.now }
    requires before { AreKept before.now }
    requires links { AreLinked (map linked_in before.now) }
    requires kind { IsKind (map linked_in before.now) leaf.now.value.like (kind_of leaf.now.value.leaf.now.body) }
    requires kept { IsKept leaf.now.value }
    ensures lined { IfOk result (λ s. lined_in s ≡ next_lined round (map tabled_in leaves.now) (tabled_in leaf.now)) }
    ensures link { IfOk result (λ s. linked_in s ≡ linked_in leaf.now) }
    ensures kept { IfOk result (λ s. IsKept s.value) }
{
    let rows = next_rows(alloc, round, near, leaves, leaf)?;
    if same_rows(leaf.rows.as_slice(), rows.as_slice()) {
        return leaf.clone();
    }
    with_next_rows(alloc, before, leaf, rows)
}

/// The rows of leaves after a round.
pub(crate) fn next<'a>(
    alloc: Global,
    round: u8,
    near: &Near,
    leaves: &[Rc<LeafRows<'a>>],
) -> Result<Vec<Rc<LeafRows<'a>>>, AllocError>
    requires near { AreNear (map leaf_in leaves.now) near.now }
    requires kept { AreKept leaves.now }
    requires links { AreLinked (map linked_in leaves.now) }
    ensures lined { IfOk result (λ v. map lined_in v.items ≡ next_round round (map lined_in leaves.now)) }
    ensures links { IfOk result (λ v. map linked_in v.items ≡ map linked_in leaves.now) }
    ensures kept { IfOk result (λ v. AreKept v.items) }
{
    let mut all = Vec::new(alloc);
    for leaf in leaves {
        let next = next_leaf(alloc, round, near, leaves, all.as_slice(), leaf)?;
        all.push(next)?;
    }
    Ok(all)
}
