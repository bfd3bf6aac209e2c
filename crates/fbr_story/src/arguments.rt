//! Reads what an event of a block type alone carries: the values in their order, or each behind its name.

use crate::reading::Reader;
use crate::values::{read_value, read_values};
use fb_words::Mark;
use fbr_alone::{Argument, EventInput};
use fbr_names::{Fault, unknown};
use fbr_places::Writing;
use std::alloc::{AllocError, Global};

// A value that is given by its name: the number of the argument, and the value.
#[derive(Clone, Copy)]
struct Given {
    index: usize,
    value: i64,
}

// The argument that a name at a byte stands for, and its number.
fn find_argument<'e>(
    alloc: Global,
    event: &'e EventInput,
    name: &str,
    at: usize,
) -> Result<(usize, &'e Argument), Fault> {
    let mut names = Vec::new(alloc);
    for (index, argument) in event.arguments.iter().enumerate() {
        if argument.name.as_str() == name {
            return Ok((index, argument));
        }
        names.push(argument.name.clone()?)?;
    }
    let words = [event.name.as_str(), " carries no ", name];
    Err(unknown(alloc, at, &words, &names, name))
}

// The value that was given for the argument of a number.
fn given_for(all: &[Given], index: usize) -> Option<i64> {
    for given in all {
        if given.index == index {
            return Some(given.value);
        }
    }
    None
}

// A value behind its name.
fn read_named(reader: &mut Reader<'_>, event: &EventInput, all: &[Given]) -> Result<Given, Fault> {
    let at = reader.start();
    let name = reader.name("the name of a data input")?;
    let (index, argument) = find_argument(reader.alloc, event, name, at)?;
    if given_for(all, index).is_some() {
        return Err(Fault::at(reader.alloc, at, &[name, " is given twice"]));
    }
    reader.mark(Mark::Assign, "`:=`")?;
    let value = read_value(reader, argument.of_type)?;
    Ok(Given { index, value })
}

// All values behind their names, in any order.
fn read_all_named(reader: &mut Reader<'_>, event: &EventInput) -> Result<Vec<Given>, Fault> {
    let mut all = Vec::new(reader.alloc);
    reader.mark(Mark::LParen, "`(`")?;
    for _ in 0..reader.tokens.len() {
        let given = read_named(reader, event, &all)?;
        all.push(given)?;
        if !reader.take_mark(Mark::Comma) {
            break;
        }
    }
    Ok(all)
}

// That no value is given for an argument.
fn not_given(alloc: Global, event: &EventInput, argument: &Argument, at: usize) -> Fault {
    let mut writing = Writing::new(alloc);
    writing.put(event.name.as_str());
    writing.put(" carries ");
    writing.put(argument.name.as_str());
    writing.put(" too, and no value is given for it");
    Fault::written(at, writing)
}

// The values of all arguments, in their order.
fn in_order(
    reader: &Reader<'_>,
    event: &EventInput,
    all: &[Given],
    at: usize,
) -> Result<Vec<i64>, Fault> {
    let mut values = Vec::new(reader.alloc);
    for (index, argument) in event.arguments.iter().enumerate() {
        match given_for(all, index) {
            Some(value) => values.push(value)?,
            None => {
                return Err(not_given(reader.alloc, event, argument, at));
            }
        }
    }
    Ok(values)
}

// The values in their order.
fn read_in_order(reader: &mut Reader<'_>, event: &EventInput) -> Result<Vec<i64>, Fault> {
    let mut types = Vec::new(reader.alloc);
    for argument in &event.arguments {
        types.push(argument.of_type)?;
    }
    let values = read_values(reader, event.name.as_str(), &types, false)?;
    Ok(all_of(reader.alloc, &values)?)
}

/// The values that are there.
pub(crate) fn all_of(alloc: Global, values: &[Option<i64>]) -> Result<Vec<i64>, AllocError> {
    let mut all = Vec::new(alloc);
    for value in values {
        if let Some(number) = value {
            all.push(*number)?;
        }
    }
    Ok(all)
}

/// The values of an event in brackets, which are to stand next, in the order of its arguments.
pub(crate) fn read_arguments(
    reader: &mut Reader<'_>,
    event: &EventInput,
) -> Result<Vec<i64>, Fault> {
    if !reader.is_named_behind(Mark::LParen, Mark::Assign) {
        return read_in_order(reader, event);
    }
    let all = read_all_named(reader, event)?;
    let at = reader.start();
    reader.mark(Mark::RParen, "`)`")?;
    in_order(reader, event, &all, at)
}
