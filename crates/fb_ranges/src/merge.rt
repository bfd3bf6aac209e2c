//! Ways that meet.

ghost use Rattle.std.specs.Prelude.{◌≡◌, ◌+◌, ◌<◌, ◌^◌, IfOk, None, OnOk, Some, map, if◌then◌else◌};
ghost use Rattle.std.specs.Str.{bytes_eq};
ghost use Rattle.fb_model.specs.Names.{Name};
ghost use Rattle.fb_model.specs.Clear as book;
ghost use Rattle.fb_model.specs.Clear.{Spans};
ghost use Rattle.fb_ranges.specs.declared.told.Told.TheVariants as told;
ghost use Rattle.fb_ranges.specs.Finding.{longer};
ghost use Rattle.fb_ranges.specs.Meeting.{Besides, Dated, joint, marked, met, ranges_after, row_after};
ghost use Rattle.fb_ranges_intervals.specs.Views.{span_of};
ghost use Rattle.fb_ranges.specs.Views.{mark_of, names_of, spans_of};

use crate::rows::Ranges;
use crate::told::{Told, longer};
use crate::way::{Reached, Way, Ways};
use fb_ranges_intervals::{Interval, joined};
use indexmap::IndexMap;
use st_types::VariableName;
use std::alloc::{AllocError, Global};

/// The ranges of these variables, in their order.
pub(crate) fn noted(
    alloc: Global,
    names: &[&VariableName],
    ranges: &Ranges,
) -> Result<Vec<Interval>, AllocError>
    ensures { IfOk result (λ v. map span_of v.items ≡ map (spans_of ranges.now) (names_of names.now)) }
{
    let mut noted = Vec::with_capacity(alloc, names.len())?;
    for name in names {
        noted.push(ranges.find_at(name))?;
    }
    Ok(noted)
}

// Gives each of these variables the range that was noted of it.
fn take_back(
    names: &[&VariableName],
    noted: &[Interval],
    ranges: &mut Ranges,
) -> Result<(), AllocError>
    ensures { (spans : Spans) → map span_of noted.now ≡ map spans (names_of names.now) → OnOk result (spans_of ranges.new ≡ book.reset (names_of names.now) spans (spans_of ranges.old)) }
{
    for i in 0..names.len() {
        let Some(range) = noted.get(i) else {
            return Ok(());
        };
        ranges.insert_at(names[i], *range)?;
    }
    Ok(())
}

/// A way that has ended, began with what was noted of these variables, and may have touched no others; its ranges are taken back.
pub(crate) fn ended<'a>(
    alloc: Global,
    names: Vec<&'a VariableName>,
    told: Told,
    before: &[Interval],
    ranges: &mut Ranges,
) -> Result<Way<'a>, AllocError>
    ensures told { IfOk result (λ way. way.told ≡ told) }
    ensures names { IfOk result (λ way. names_of way.names.items ≡ names_of names.entry.items) }
    ensures ends { IfOk result (λ way. map span_of way.ends.items ≡ map (spans_of ranges.old) (names_of names.entry.items)) }
    ensures ranges { (spans : Spans) → map span_of before.now ≡ map spans (names_of names.entry.items) → OnOk result (spans_of ranges.new ≡ book.reset (names_of names.entry.items) spans (spans_of ranges.old)) }
{
    let ends = noted(alloc, &names, ranges)?;
    take_back(&names, before, ranges)?;
    Ok(Way { names, ends, told })
}

/// No way.
pub(crate) fn no_ways(alloc: Global) -> Ways
    ensures count { result.count ≡ 0 }
    ensures told { result.told ≡ told.Steps 0 }
    ensures rows { (x : Name) → mark_of result x ≡ None }
{
    Ways {
        alloc,
        rows: IndexMap::new(alloc),
        count: 0,
        told: Told::Steps(0),
    }
}

// The range of a variable after all ways, from the one that it has where none touches it.
fn range_after(ways: &Ways, name: &str, before: Interval) -> Interval
    ensures { span_of result ≡ met ways.now.count (mark_of ways.now name.now) (span_of before) }
{
    let Some(reached) = ways.rows.get(name) else {
        return before;
    };
    if reached.ways < ways.count {
        return joined(reached.range, before);
    }
    reached.range
}

// The range of a variable at the end of the next way, joined to those of the earlier ones.
fn next_range(ways: &Ways, name: &str, before: Interval, end: Interval) -> Interval
    ensures { span_of result ≡ row_after ways.now.count (mark_of ways.now name.now) (span_of before) (span_of end) }
{
    if ways.count == 0 {
        return end;
    }
    joined(range_after(ways, name, before), end)
}

// One variable with its range at the end of the next way.
fn merge_row(ways: &mut Ways, name: &str, before: Interval, end: Interval) -> Result<(), AllocError>
    requires room { ways.old.count < 2 ^ 63 }
    ensures count { ways.new.count ≡ ways.old.count }
    ensures told { ways.new.told ≡ ways.old.told }
    ensures rows { OnOk result ((x : Name) → mark_of ways.new x ≡ (if bytes_eq name.now x then Some (row_after ways.old.count (mark_of ways.old name.now) (span_of before) (span_of end), ways.old.count + 1) else mark_of ways.old x)) }
{
    let reached = Reached {
        range: next_range(ways, name, before, end),
        ways: ways.count + 1,
    };
    if let Some(before) = ways.rows.get_mut(name) {
        *before = reached;
        return Ok(());
    }
    let key = String::from_str(ways.alloc, name)?;
    ways.rows.insert(key, reached)?;
    Ok(())
}

/// Earlier ways with one more, which began with these ranges.
pub(crate) fn merged(ways: &mut Ways, way: &Way<'_>, ranges: &Ranges) -> Result<(), AllocError>
    requires room { ways.old.count < 2 ^ 63 }
    requires dated { (x : Name) → Dated ways.old.count (mark_of ways.old x) }
    ensures count { OnOk result (ways.new.count ≡ ways.old.count + 1) }
    ensures told { OnOk result (ways.new.told ≡ longer ways.old.told way.now.told) }
    ensures dated { (ends : Spans) → map span_of way.now.ends.items ≡ map ends (names_of way.now.names.items) → OnOk result ((x : Name) → Dated ways.new.count (mark_of ways.new x)) }
    ensures ranges { (ends later : Spans) → map span_of way.now.ends.items ≡ map ends (names_of way.now.names.items) → Besides (names_of way.now.names.items) (spans_of ranges.now) later → OnOk result (ranges_after ways.new.count (mark_of ways.new) later ≡ joint ways.old.count (ranges_after ways.old.count (mark_of ways.old) (spans_of ranges.now)) (book.reset (names_of way.now.names.items) ends (spans_of ranges.now))) }
{
    merge_rows(ways, &way.names, &way.ends, ranges)?;
    ways.told = longer(ways.told, way.told);
    ways.count += 1;
    Ok(())
}

// These variables with their ranges at the end of the next way.
fn merge_rows(
    ways: &mut Ways,
    names: &[&VariableName],
    ends: &[Interval],
    ranges: &Ranges,
) -> Result<(), AllocError>
    requires room { ways.old.count < 2 ^ 63 }
    ensures count { ways.new.count ≡ ways.old.count }
    ensures told { ways.new.told ≡ ways.old.told }
    ensures rows { (spans : Spans) → map span_of ends.now ≡ map spans (names_of names.now) → OnOk result ((x : Name) → mark_of ways.new x ≡ marked ways.old.count (names_of names.now) (spans_of ranges.now) spans (mark_of ways.old) x) }
{
    for i in 0..names.len() {
        let Some(end) = ends.get(i) else {
            return Ok(());
        };
        let name = names[i];
        merge_row(ways, name.as_str(), ranges.find_at(name), *end)?;
    }
    Ok(())
}

/// All variables with their ranges after all ways, of which the last began with these.
pub(crate) fn close(ways: &Ways, ranges: &mut Ranges) -> Result<(), AllocError>
    ensures { OnOk result (spans_of ranges.new ≡ ranges_after ways.now.count (mark_of ways.now) (spans_of ranges.old)) }
{
    for i in 0..ways.rows.len() {
        let Some((name, _)) = ways.rows.get_index(i) else {
            unreachable!();
        };
        let name = name.as_str();
        ranges.insert(name, range_after(ways, name, ranges.find(name)))?;
    }
    Ok(())
}
