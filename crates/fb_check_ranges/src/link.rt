//! What connected inputs take.

ghost use Rattle.std.specs.Prelude.{◌≡◌, ◌↔◌, List, IsTrue, IfOk};
ghost use Rattle.std.specs.Option.{option_map};
ghost use Rattle.fb_model.specs.Wires.{Output_of};
ghost use Rattle.fb_model.specs.CertificateText.{names_in};
ghost use Rattle.fb_flat.specs.declared.flat.Leaf.{Leaf};
ghost use Rattle.fb_flat.specs.Tables.{book_source, source_at};
ghost use Rattle.fb_ranges_intervals.specs.Views.{span_of};
ghost use Rattle.fb_check_ranges.specs.Rows.{row_in};
ghost use Rattle.fb_check_ranges.specs.Reasons.{Lacks, Names, NamesOne};
ghost use Rattle.fb_model.specs.Misfits.{Links};
ghost use Rattle.fb_check_ranges.specs.Places.{ArePlaces, held, SourceLies};
ghost use Rattle.fb_check_ranges.specs.Beginning.{entry_name, shown, LinkLies};
ghost use Rattle.fb_check_ranges.specs.Clearing.{LinkFails};

use crate::place::Places;
use crate::row::{leaf_row, row};
use fb_cert::Certificate;
use fb_faults::Unclear;
use fb_flat::{Input, Source, joined};
use fb_ranges_intervals::{Interval, is_within};
use fb_types_blocks::Variables;
use fb_words::ElemType;
use std::alloc::{AllocError, Global};

/// Where the first input of a name takes its value from.
pub fn source_named<'a>(inputs: &'a [Input], name: &str) -> Option<&'a Source>
    ensures { held (option_map (λ s. s.now) result) ≡ source_at inputs.now name.now }
{
    for input in inputs {
        if name == input.name.as_str() {
            return Some(&input.source);
        }
    }
    None
}

// Whether what the output of a leaf gives lies in a row.
fn output_lies(
    alloc: Global,
    certificate: &Certificate,
    places: &Places,
    path: &str,
    name: &str,
    row: Interval,
) -> Result<bool, AllocError>
    ensures { (ls : List Leaf) → ArePlaces ls places.now → IfOk result (λ b. IsTrue b ↔ SourceLies certificate.now ls (span_of row) (Output_of (names_in path.now) name.now)) }
{
    match places.get(path) {
        Some(leaf) => Ok(is_within(leaf_row(alloc, certificate, *leaf, name)?, row)),
        None => Ok(false),
    }
}

// Whether what a source gives lies in a row.
fn source_lies(
    alloc: Global,
    certificate: &Certificate,
    places: &Places,
    source: &Source,
    row: Interval,
) -> Result<bool, AllocError>
    ensures { (ls : List Leaf) → ArePlaces ls places.now → IfOk result (λ b. IsTrue b ↔ SourceLies certificate.now ls (span_of row) (book_source source.now)) }
{
    match source {
        Source::Output(path, name) => output_lies(
            alloc,
            certificate,
            places,
            path.as_str(),
            name.as_str(),
            row,
        ),
        Source::Number(_) => Ok(true),
        Source::Zeros(_, _) => Ok(true),
    }
}

// The same, where there may be no source.
fn lies(
    alloc: Global,
    certificate: &Certificate,
    places: &Places,
    source: Option<&Source>,
    row: Interval,
) -> Result<bool, AllocError>
    ensures { (ls : List Leaf) → ArePlaces ls places.now → IfOk result (λ b. IsTrue b ↔ SourceLies certificate.now ls (span_of row) (held (option_map (λ s. s.now) source.entry))) }
{
    match source {
        Some(source) => source_lies(alloc, certificate, places, source, row),
        None => Ok(true),
    }
}

// An input of a block: its name, its type, and where it takes its value from, if it is connected.
#[derive(Clone, Copy)]
struct LinkedInput<'a> {
    name: &'a str,
    of: ElemType,
    source: Option<&'a Source>,
}

// What an input takes lies in its row.
fn link_lies(
    alloc: Global,
    certificate: &Certificate,
    places: &Places,
    path: &str,
    input: &LinkedInput,
) -> Result<(), Unclear>
    ensures { (ls : List Leaf) → ArePlaces ls places.now → Names path.now input.now.name.now (SourceLies certificate.now ls (row_in certificate.now path.now input.now.name.now input.now.of) (held (option_map (λ s. s.now) input.now.source))) (Lacks Links (SourceLies certificate.now ls (row_in certificate.now path.now input.now.name.now input.now.of) (held (option_map (λ s. s.now) input.now.source)))) result }
{
    let row = row(alloc, certificate, path, input.name, input.of)?;
    if lies(alloc, certificate, places, input.source, row)? {
        Ok(())
    } else {
        Err(Unclear::Link(joined(alloc, path, input.name)?))
    }
}

/// What inputs take lies in their rows.
pub(crate) fn links_lie(
    alloc: Global,
    certificate: &Certificate,
    places: &Places,
    path: &str,
    inputs: &[Input],
    variables: &Variables,
) -> Result<(), Unclear>
    ensures { (ls : List Leaf) → ArePlaces ls places.now → NamesOne path.now entry_name (λ e. LinkLies certificate.now path.now ls (source_at inputs.now) (shown e)) (LinkFails certificate.now path.now ls (source_at inputs.now)) variables.now.entries result }
{
    for index in 0..variables.len() {
        let Some((name, variable)) = variables.get_index(index) else {
            return Ok(());
        };
        let name = name.as_str();
        let source = source_named(inputs, name);
        let input = LinkedInput {
            name,
            of: variable.of_type,
            source,
        };
        link_lies(alloc, certificate, places, path, &input)?;
    }
    Ok(())
}
