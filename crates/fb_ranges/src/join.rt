//! Ranges of variables, copied, set, tested and asked for.

ghost use Rattle.std.specs.Prelude.{◌≡◌, IfOk, OnOk, string_bytes};
ghost use Rattle.fb_model.specs.Clear as book;
ghost use Rattle.fb_model.specs.Names.{is_in};
ghost use Rattle.fb_model.specs.Spans.{within};
ghost use Rattle.fb_model.specs.Asking.{asking, asking_all};
ghost use Rattle.fb_ranges_intervals.specs.Views.{span_of};
ghost use Rattle.fb_ranges.specs.Settling.{LastHaveRows, held};
ghost use Rattle.fb_ranges.specs.Views.{names_of, spans_of};

use crate::rows::Ranges;
use crate::table::is_same;
use fb_ranges_intervals::{Interval, is_within, joined};
use st_types::VariableName;
use std::alloc::AllocError;

/// The same ranges.
pub fn copied(ranges: &Ranges) -> Result<Ranges, AllocError>
    ensures { IfOk result (λ r. spans_of r ≡ spans_of ranges.now) }
{
    Ok(Ranges {
        alloc: ranges.alloc,
        names: ranges.names.clone()?,
        rows: ranges.rows.clone()?,
    })
}

/// Gives each of these variables its row.
pub fn reset(names: &[&VariableName], rows: &Ranges, ranges: &mut Ranges) -> Result<(), AllocError>
    ensures { OnOk result (spans_of ranges.new ≡ book.reset (names_of names.now) (spans_of rows.now) (spans_of ranges.old)) }
{
    for name in names {
        ranges.insert_at(name, rows.find_at(name))?;
    }
    Ok(())
}

/// The row of a variable is asked to hold a range too.
pub(crate) fn ask(
    name: &VariableName,
    range: Interval,
    asked: &mut Ranges,
) -> Result<(), AllocError>
    ensures { OnOk result (spans_of asked.new ≡ asking (string_bytes name.now.name) (span_of range) (spans_of asked.old)) }
{
    let row = asked.find_at(name);
    if is_within(range, row) {
        return Ok(());
    }
    asked.insert_at(name, joined(row, range))
}

// A variable gets its row back, which is asked to hold what the variable has; and whether that lies in it as it is.
fn settle_one(
    name: &VariableName,
    rows: &Ranges,
    ranges: &mut Ranges,
    asked: &mut Ranges,
) -> Result<bool, AllocError>
    ensures asks { OnOk result (held (spans_of rows.now) (spans_of asked.new) ≡ asking (string_bytes name.now.name) (spans_of ranges.old (string_bytes name.now.name)) (held (spans_of rows.now) (spans_of asked.old))) }
    ensures kept { IfOk result (λ kept. kept ≡ within (spans_of ranges.old (string_bytes name.now.name)) (spans_of rows.now (string_bytes name.now.name))) }
    ensures rest { OnOk result (spans_of ranges.new ≡ book.changed (string_bytes name.now.name) (λ b. spans_of rows.now (string_bytes name.now.name)) (spans_of ranges.old)) }
{
    let range = ranges.find_at(name);
    let row = rows.find_at(name);
    if is_same(range, row) {
        return Ok(true);
    }
    ranges.insert_at(name, row)?;
    if is_within(range, row) {
        return Ok(true);
    }
    ask(name, range, asked)?;
    Ok(false)
}

// The same of these variables; and whether all lie in their rows as they are.
fn settle_all(
    names: &[&VariableName],
    rows: &Ranges,
    ranges: &mut Ranges,
    asked: &mut Ranges,
) -> Result<bool, AllocError>
    ensures asks { OnOk result (held (spans_of rows.now) (spans_of asked.new) ≡ asking_all (names_of names.now) (spans_of ranges.old) (held (spans_of rows.now) (spans_of asked.old))) }
    ensures kept { IfOk result (λ kept. kept ≡ book.are_kept (names_of names.now) (spans_of rows.now) (spans_of ranges.old)) }
    ensures rest { OnOk result (spans_of ranges.new ≡ book.reset (names_of names.now) (spans_of rows.now) (spans_of ranges.old)) }
{
    let mut are_kept = true;
    for name in names {
        if !settle_one(name, rows, ranges, asked)? {
            are_kept = false;
        }
    }
    Ok(are_kept)
}

/// These variables get their rows back, which are asked to hold what the variables have; and whether all lie in their rows as they are.
///
/// The last `settled` of them have their rows already, and are not looked at.
pub(crate) fn settle(
    names: &[&VariableName],
    settled: usize,
    rows: &Ranges,
    ranges: &mut Ranges,
    asked: &mut Ranges,
) -> Result<bool, AllocError>
    requires { LastHaveRows settled (names_of names.now) (spans_of rows.now) (spans_of ranges.old) }
    ensures asks { OnOk result (held (spans_of rows.now) (spans_of asked.new) ≡ asking_all (names_of names.now) (spans_of ranges.old) (held (spans_of rows.now) (spans_of asked.old))) }
    ensures kept { IfOk result (λ kept. kept ≡ book.are_kept (names_of names.now) (spans_of rows.now) (spans_of ranges.old)) }
    ensures rest { OnOk result (spans_of ranges.new ≡ book.reset (names_of names.now) (spans_of rows.now) (spans_of ranges.old)) }
{
    let others = names.len() - settled;
    settle_all(&names[..others], rows, ranges, asked)
}

/// Whether a variable is one of these.
pub(crate) fn is_among(name: &VariableName, names: &[&VariableName]) -> bool
    ensures { result ≡ is_in (string_bytes name.now.name) (names_of names.now) }
{
    for other in names {
        if name.as_str() == other.as_str() {
            return true;
        }
    }
    false
}
