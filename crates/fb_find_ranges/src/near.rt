//! The leaves of a device by their paths, and what their outputs give.

ghost use Rattle.std.specs.Prelude.{◌≡◌, Some, None, map, slice_get, IfOk, OnOk, if◌then◌else◌};
ghost use Rattle.std.specs.Option.{option_map};
ghost use Rattle.std.specs.Str.{bytes_eq};
ghost use Rattle.fb_model.specs.Names.{Name};
ghost use Rattle.fb_model.specs.CertificateText.{names_in};
ghost use Rattle.fb_model.specs.Wires.{Output_of};
ghost use Rattle.fb_flat.specs.Leaves.{kind_of};
ghost use Rattle.fb_flat.specs.Tables.{book_source};
ghost use Rattle.fb_ranges.specs.Views.{spans_of};
ghost use Rattle.fb_ranges_intervals.specs.Views.{span_of};
ghost use Rattle.fb_check_ranges.specs.Places.{held, or_else};
ghost use Rattle.fb_find_ranges.specs.Lines.{fed_in, given};
ghost use Rattle.fb_find_ranges.specs.Views.{AreNear, fed_from, leaf_in, near_at, shown, tabled_in};

use crate::rows::LeafRows;
use crate::service::port_range;
use fb_flat::{Body, Leaf, Source};
use fb_ranges_intervals::{Interval, joined};
use indexmap::IndexMap;
use std::alloc::{AllocError, Global};
use std::rc::Rc;

/// The numbers of leaves by their paths.
pub(crate) type Near = IndexMap<String, usize>;

// Puts a number under a path, unless one stands there.
fn put(alloc: Global, near: &mut Near, path: &str, number: usize) -> Result<(), AllocError>
    ensures { OnOk result ((x : Name) → near_at near.new x ≡ or_else (near_at near.old x) (if bytes_eq x path.now then Some number else None)) }
{
    if !near.contains_key(path) {
        near.insert(String::from_str(alloc, path)?, number)?;
    }
    Ok(())
}

/// The numbers of leaves by their paths: of each path the first.
pub(crate) fn near(alloc: Global, leaves: &[&Leaf]) -> Result<Near, AllocError>
    ensures { IfOk result (λ m. AreNear (map (λ l. shown l.now) leaves.now) m) }
{
    let mut near = IndexMap::new(alloc);
    for index in 0..leaves.len() {
        put(alloc, &mut near, leaves[index].path.as_str(), index)?;
    }
    Ok(near)
}

// The range of an output of a leaf.
fn output_range(leaf: &LeafRows, name: &str) -> Interval
    ensures { span_of result ≡ given (kind_of leaf.now.leaf.now.body) (spans_of leaf.now.ranges.value) name.now }
{
    match &leaf.leaf.body {
        Body::Basic(_) => leaf.ranges.find(name),
        Body::Served(service) => port_range(service, name),
    }
}

// A range, and that of an output of the leaf of a number, if there is one.
fn number_fed(leaves: &[Rc<LeafRows<'_>>], number: usize, name: &str, range: Interval) -> Interval
    ensures { span_of result ≡ fed_from (option_map tabled_in (slice_get leaves.now number)) name.now (span_of range) }
{
    if number < leaves.len() {
        joined(range, output_range(&leaves[number], name))
    } else {
        range
    }
}

// A range, and that of an output of the leaf at a path, if there is one.
fn output_fed(
    near: &Near,
    leaves: &[Rc<LeafRows<'_>>],
    path: &str,
    name: &str,
    range: Interval,
) -> Interval
    requires { AreNear (map leaf_in leaves.now) near.now }
    ensures { span_of result ≡ fed_in (map tabled_in leaves.now) (Output_of (names_in path.now) name.now) (span_of range) }
{
    match near.get(path) {
        Some(number) => number_fed(leaves, *number, name, range),
        None => range,
    }
}

// A range, and what its source gives.
fn source_fed(
    near: &Near,
    leaves: &[Rc<LeafRows<'_>>],
    source: &Source,
    range: Interval,
) -> Interval
    requires { AreNear (map leaf_in leaves.now) near.now }
    ensures { span_of result ≡ fed_in (map tabled_in leaves.now) (book_source source.now) (span_of range) }
{
    match source {
        Source::Output(path, name) => {
            output_fed(near, leaves, path.as_str(), name.as_str(), range)
        }
        Source::Number(_) => range,
        Source::Zeros(_, _) => range,
    }
}

/// The same, where there may be no source.
pub(crate) fn fed(
    near: &Near,
    leaves: &[Rc<LeafRows<'_>>],
    source: Option<&Source>,
    range: Interval,
) -> Interval
    requires { AreNear (map leaf_in leaves.now) near.now }
    ensures { span_of result ≡ fed_in (map tabled_in leaves.now) (held (option_map (λ s. s.now) source.entry)) (span_of range) }
{
    match source {
        Some(source) => source_fed(near, leaves, source, range),
        None => range,
    }
}
