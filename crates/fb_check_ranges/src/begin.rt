//! Rows against types, and against what variables have at first.

ghost use Rattle.std.specs.Prelude.{◌≡◌, ◌↔◌, IsTrue};
ghost use Rattle.std.specs.Option.{option_map};
ghost use Rattle.fb_model.specs.Names.{Name};
ghost use Rattle.fb_model.specs.Values.{Value};
ghost use Rattle.fb_model.specs.System.{start_of};
ghost use Rattle.fb_model.specs.Store.{first_input};
ghost use Rattle.fb_model.specs.BlockTyping.{variable_of};
ghost use Rattle.fb_model.specs.Spans.{span};
ghost use Rattle.fb_flat.specs.Tables.{book_source, source_at};
ghost use Rattle.fb_types_blocks.specs.Views.{declared_of};
ghost use Rattle.fb_ranges_intervals.specs.Views.{span_of};
ghost use Rattle.fb_check_ranges.specs.Rows.{row_in};
ghost use Rattle.fb_check_ranges.specs.Reasons.{Lacks, Names, NamesOne};
ghost use Rattle.fb_model.specs.Misfits.{Starts};
ghost use Rattle.fb_check_ranges.specs.Places.{held};
ghost use Rattle.fb_check_ranges.specs.Beginning.{entry_name, shown, IsRange, InputBegins, OtherBegins};
ghost use Rattle.fb_model.specs.Misfits.{Begins};
ghost use Rattle.fb_check_ranges.specs.Clearing.{InputFails, OtherFails};

use crate::link::source_named;
use crate::row::row;
use fb_cert::Certificate;
use fb_faults::Unclear;
use fb_flat::{Input, Source, joined};
use fb_ranges_intervals::{Interval, is_within, whole};
use fb_types_blocks::{Variable, Variables};
use fb_words::ElemType;
use std::alloc::Global;

// One number as a range.
fn only(number: &i64) -> Interval
    ensures { span_of result ≡ span number.now number.now }
{
    Interval {
        low: *number,
        high: *number,
    }
}

/// The range of the start value of a variable; of an array, that of its elements.
pub fn start_range(variable: &Variable) -> Interval
    ensures { (x : Name) → IsRange (span_of result) (start_of (variable_of (declared_of x variable.now))) }
{
    match &variable.start {
        Some(number) => only(number),
        None => only(&0),
    }
}

// The range of what an input has at first, by its source: the constant that it always holds, or its start value.
fn constant_range(source: &Source, variable: &Variable) -> Interval
    ensures { (x : Name) → IsRange (span_of result) (first_input (book_source source.now) (start_of (variable_of (declared_of x variable.now)))) }
{
    match source {
        Source::Output(_, _) => start_range(variable),
        Source::Number(number) => only(number),
        Source::Zeros(_, _) => only(&0),
    }
}

/// The same, where there may be no source: then 0.
pub fn first_range(source: Option<&Source>, variable: &Variable) -> Interval
    ensures { (x : Name) → IsRange (span_of result) (first_input (held (option_map (λ s. s.now) source.entry)) (start_of (variable_of (declared_of x variable.now)))) }
{
    match source {
        Some(source) => constant_range(source, variable),
        None => only(&0),
    }
}

// Whether a row lies in its type, and a range in the row.
fn begins(row: Interval, of: ElemType, first: Interval) -> bool
    ensures { (value : Value) → IsRange (span_of first) value → IsTrue result ↔ Begins (span_of row) of value }
{
    is_within(row, whole(of)) && is_within(first, row)
}

// The row of a variable lies in its type, and holds what the variable has at first.
fn variable_begins(
    alloc: Global,
    certificate: &Certificate,
    path: &str,
    name: &str,
    of: ElemType,
    first: Interval,
) -> Result<(), Unclear>
    ensures { (value : Value) → IsRange (span_of first) value → Names path.now name.now (Begins (row_in certificate.now path.now name.now of) of value) (Lacks Starts (Begins (row_in certificate.now path.now name.now of) of value)) result }
{
    let row = row(alloc, certificate, path, name, of)?;
    if begins(row, of, first) {
        Ok(())
    } else {
        Err(Unclear::Start(joined(alloc, path, name)?))
    }
}

/// The rows of inputs lie in their types, and hold what the inputs have at first.
pub(crate) fn inputs_begin(
    alloc: Global,
    certificate: &Certificate,
    path: &str,
    inputs: &[Input],
    variables: &Variables,
) -> Result<(), Unclear>
    ensures { NamesOne path.now entry_name (λ e. InputBegins certificate.now path.now (source_at inputs.now) (shown e)) (InputFails certificate.now path.now (source_at inputs.now)) variables.now.entries result }
{
    for index in 0..variables.len() {
        let Some((name, variable)) = variables.get_index(index) else {
            return Ok(());
        };
        let name = name.as_str();
        let first = first_range(source_named(inputs, name), variable);
        variable_begins(alloc, certificate, path, name, variable.of_type, first)?;
    }
    Ok(())
}

/// The rows of other variables lie in their types, and hold the start values.
pub(crate) fn others_begin(
    alloc: Global,
    certificate: &Certificate,
    path: &str,
    variables: &Variables,
) -> Result<(), Unclear>
    ensures { NamesOne path.now entry_name (λ e. OtherBegins certificate.now path.now (shown e)) (OtherFails certificate.now path.now) variables.now.entries result }
{
    for index in 0..variables.len() {
        let Some((name, variable)) = variables.get_index(index) else {
            return Ok(());
        };
        let name = name.as_str();
        let first = start_range(variable);
        variable_begins(alloc, certificate, path, name, variable.of_type, first)?;
    }
    Ok(())
}
