//! The data inputs that an event takes, their slots, and where their values come from.

ghost use Rattle.std.specs.Prelude.{◌≡◌, map, string_bytes, Some, slice_get, IfOk};
ghost use Rattle.std.specs.Option.{option_map};
ghost use Rattle.fb_types_blocks.specs.Views.{names_of};
ghost use Rattle.fb_chart.specs.Tables.{Each};
ghost use Rattle.fb_chart.specs.Sampling.{count_among};
ghost use Rattle.fb_device_tables.specs.Filling.{source_named, seats_of, IsSlotAt, IsSourceMade, IsTakeMade};

use crate::names::number;
use crate::seat::Seat;
use fb_chart::{Source, Take};
use fb_flat::Input;
use indexmap::IndexSet;
use st_exec::Layout;
use std::alloc::{AllocError, Global};

/// How many slots a variable has.
pub(crate) fn count(layout: &Layout, name: &str) -> usize
    ensures { result ≡ count_among layout.now name.now }
{
    let _room = layout.size();
    match layout.location(name) {
        Some(location) => location.count(),
        None => 1,
    }
}

// The slot of an output of the block of a number, 0 where there is no such block.
fn slot_at(seats: &[Seat], block: u16, name: &str) -> usize
    ensures { IsSlotAt (seats_of seats.now) block name.now result }
{
    match seats.get(block as usize) {
        Some(seat) => seat.issued.slot(name),
        None => 0,
    }
}

// A source: an output by the number of its block and its slot, or a constant.
fn origin(
    paths: &IndexSet<String>,
    seats: &[Seat],
    source: &fb_flat::Source,
) -> Result<Source, AllocError>
    ensures { IfOk result (λ s. IsSourceMade (names_of paths.now) (seats_of seats.now) source.now s) }
{
    match source {
        fb_flat::Source::Output(path, name) => {
            let block = number(paths, path.as_str());
            let slot = slot_at(seats, block, name.as_str());
            Ok(Source::Output(block, name.clone()?, slot))
        }
        fb_flat::Source::Number(number) => Ok(Source::Number(*number)),
        fb_flat::Source::Zeros(_, _) => Ok(Source::Number(0)),
    }
}

// The source of the first input of a name.
fn source_of<'a>(inputs: &'a [Input], name: &str) -> Option<&'a fb_flat::Source>
    ensures { option_map (λ s. s.now) result ≡ source_named inputs.now name.now }
{
    for input in inputs {
        if name == input.name.as_str() {
            return Some(&input.source);
        }
    }
    None
}

// The input of a name takes its value.
fn taken(
    paths: &IndexSet<String>,
    seats: &[Seat],
    own: &Layout,
    inputs: &[Input],
    name: &String,
) -> Result<Take, AllocError>
    ensures { IfOk result (λ t. IsTakeMade (names_of paths.now) (seats_of seats.now) own.now inputs.now (string_bytes name.now) t) }
{
    let source = match source_of(inputs, name.as_str()) {
        Some(source) => origin(paths, seats, source)?,
        None => Source::Number(0),
    };
    Ok(Take {
        input: name.clone()?,
        slot: own.slot(name.as_str()),
        count: count(own, name.as_str()),
        source,
    })
}

/// The inputs of these names take their values, in order.
pub(crate) fn takes(
    alloc: Global,
    paths: &IndexSet<String>,
    seats: &[Seat],
    own: &Layout,
    inputs: &[Input],
    names: &[String],
) -> Result<Vec<Take>, AllocError>
    ensures { IfOk result (λ v. Each (IsTakeMade (names_of paths.now) (seats_of seats.now) own.now inputs.now) (map string_bytes names.now) v.items) }
{
    let mut takes = Vec::with_capacity(alloc, names.len())?;
    for name in names {
        takes.push(taken(paths, seats, own, inputs, name)?)?;
    }
    Ok(takes)
}
