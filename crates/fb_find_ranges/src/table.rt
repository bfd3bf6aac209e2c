//! Rows by the names of their variables.

ghost use Rattle.std.specs.Prelude.{◌≡◌, map, IfOk, OnOk};
ghost use Rattle.fb_flat.specs.Leaves.{kind_of};
ghost use Rattle.fb_ranges.specs.Views.{spans_of};
ghost use Rattle.fb_find_ranges.specs.Lines.{line_names, lined, put, spans_by};
ghost use Rattle.fb_find_ranges.specs.Views.{AreKept, AreLinked, IsKept, IsKind, IsLike, line_of, lined_in, lined_of, linked_in, shown};

use crate::alike::alike;
use crate::rows::{LeafRows, Row};
use crate::work::asked;
use fb_flat::Leaf;
use fb_ranges::{Ranges, copied};
use std::alloc::{AllocError, Global};
use std::rc::Rc;

// Puts rows by their names, of those of one name the last.
fn put(rows: &[Row], ranges: &mut Ranges) -> Result<(), AllocError>
    ensures { OnOk result (spans_of ranges.new ≡ put (map line_of rows.now) (spans_of ranges.old)) }
{
    for row in rows {
        ranges.insert_near(row.name, row.number, row.range)?;
    }
    Ok(())
}

// Rows by their names alone.
fn ranges(alloc: Global, rows: &[Row]) -> Result<Ranges, AllocError>
    ensures { IfOk result (λ r. spans_of r ≡ spans_by (map line_of rows.now)) }
{
    let mut ranges = Ranges::new(alloc)?;
    put(rows, &mut ranges)?;
    Ok(ranges)
}

// A copy of the table of a leaf.
fn own_ranges(leaf_rows: &LeafRows) -> Result<Ranges, AllocError>
    requires { IsKept leaf_rows.now }
    ensures { IfOk result (λ r. spans_of r ≡ spans_by (map line_of leaf_rows.now.rows.items)) }
{
    copied(&leaf_rows.ranges)
}

// Rows by their names, in a copy of the table of rows with the same names, in which each has its place.
fn next_ranges(old: &LeafRows, rows: &[Row]) -> Result<Ranges, AllocError>
    requires old { IsKept old.now }
    requires names { line_names (map line_of rows.now) ≡ line_names (map line_of old.now.rows.items) }
    ensures { IfOk result (λ r. spans_of r ≡ spans_by (map line_of rows.now)) }
{
    let mut ranges = own_ranges(old)?;
    put(rows, &mut ranges)?;
    Ok(ranges)
}

// A leaf with rows of its variables, by their names too, and what its algorithms ask under these.
fn examined<'a>(
    alloc: Global,
    like: usize,
    leaf: &'a Leaf,
    rows: Vec<Row<'a>>,
    ranges: Ranges,
) -> Result<LeafRows<'a>, AllocError>
    requires { spans_of ranges ≡ spans_by (map line_of rows.items) }
    ensures lined { IfOk result (λ s. lined_of s ≡ lined (shown leaf.now) (map line_of rows.entry.items)) }
    ensures like { IfOk result (λ s. (s.leaf.now ≡ leaf.now) × (s.like ≡ like)) }
    ensures kept { IfOk result IsKept }
{
    let asked = asked(alloc, leaf, &ranges)?;
    Ok(LeafRows {
        leaf,
        like,
        rows,
        ranges: Rc::new(alloc, ranges)?,
        asked: Rc::new(alloc, asked)?,
    })
}

// The same with the tables of a leaf whose block and rows are alike.
fn likened<'a>(
    made: &LeafRows<'a>,
    like: usize,
    leaf: &'a Leaf,
    rows: Vec<Row<'a>>,
) -> Result<LeafRows<'a>, AllocError>
    requires kept { IsKept made.now }
    requires like { IsLike made.now (kind_of leaf.now.body) rows.items }
    ensures lined { IfOk result (λ s. lined_of s ≡ lined (shown leaf.now) (map line_of rows.entry.items)) }
    ensures like { IfOk result (λ s. (s.leaf.now ≡ leaf.now) × (s.like ≡ like)) }
    ensures kept { IfOk result IsKept }
{
    Ok(LeafRows {
        leaf,
        like,
        rows,
        ranges: made.ranges.clone()?,
        asked: made.asked.clone()?,
    })
}

/// A leaf with rows of its variables, by their names too, and what its algorithms ask under these; `like` is the number of a leaf before it with the same
/// block, or the number of all. Where that one, or one like it, has the same rows, its tables are shared.
pub(crate) fn with_rows<'a>(
    alloc: Global,
    before: &[Rc<LeafRows<'a>>],
    like: usize,
    leaf: &'a Leaf,
    rows: Vec<Row<'a>>,
) -> Result<Rc<LeafRows<'a>>, AllocError>
    requires before { AreKept before.now }
    requires links { AreLinked (map linked_in before.now) }
    requires kind { IsKind (map linked_in before.now) like (kind_of leaf.now.body) }
    ensures link { IfOk result (λ s. linked_in s ≡ (kind_of leaf.now.body, like)) }
    ensures lined { IfOk result (λ s. lined_in s ≡ lined (shown leaf.now) (map line_of rows.entry.items)) }
    ensures kept { IfOk result (λ s. IsKept s.value) }
{
    let leaf_rows = match alike(before, like, leaf, rows.as_slice()) {
        Some(made) => likened(made, like, leaf, rows)?,
        None => {
            let ranges = ranges(alloc, rows.as_slice())?;
            examined(alloc, like, leaf, rows, ranges)?
        }
    };
    Ok(Rc::new(alloc, leaf_rows)?)
}

/// The same with next rows of a leaf that has rows of the same names, whose table theirs begins with.
pub(crate) fn with_next_rows<'a>(
    alloc: Global,
    before: &[Rc<LeafRows<'a>>],
    old: &LeafRows<'a>,
    rows: Vec<Row<'a>>,
) -> Result<Rc<LeafRows<'a>>, AllocError>
    requires before { AreKept before.now }
    requires links { AreLinked (map linked_in before.now) }
    requires kind { IsKind (map linked_in before.now) old.now.like (kind_of old.now.leaf.now.body) }
    requires old { IsKept old.now }
    requires names { line_names (map line_of rows.items) ≡ line_names (map line_of old.now.rows.items) }
    ensures link { IfOk result (λ s. linked_in s ≡ (kind_of old.now.leaf.now.body, old.now.like)) }
    ensures lined { IfOk result (λ s. lined_in s ≡ lined (shown old.now.leaf.now) (map line_of rows.entry.items)) }
    ensures kept { IfOk result (λ s. IsKept s.value) }
{
    let (like, leaf) = (old.like, old.leaf);
    let leaf_rows = match alike(before, like, leaf, rows.as_slice()) {
        Some(made) => likened(made, like, leaf, rows)?,
        None => {
            let ranges = next_ranges(old, rows.as_slice())?;
            examined(alloc, like, leaf, rows, ranges)?
        }
    };
    Ok(Rc::new(alloc, leaf_rows)?)
}

/// The rows of leaves, by their names alone.
pub(crate) fn all_ranges(alloc: Global, all: &[Rc<LeafRows<'_>>]) -> Result<Vec<Ranges>, AllocError>
    requires { AreKept all.now }
    ensures { IfOk result (λ v. map spans_of v.items ≡ map (λ s. spans_by s.lines) (map lined_in all.now)) }
{
    let mut tables = Vec::new(alloc);
    for leaf_rows in all {
        tables.push(own_ranges(leaf_rows)?)?;
    }
    Ok(tables)
}
