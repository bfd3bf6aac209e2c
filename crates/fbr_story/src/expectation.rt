//! Reads what is to be looked at.

use crate::reading::Reader;
use crate::story::{Expected, Looked, Variable};
use crate::values::read_value;
use fb_words::{ElemType, Mark};
use fbr_names::{Declared, Fault, find_state, find_variable};

// The queue of a resource, behind QUEUE, and how many entries are to be pending.
fn read_queue<'a>(reader: &mut Reader<'a>) -> Result<Expected<'a>, Fault> {
    let at = reader.start();
    let name = reader.path("the name of a resource")?;
    let (device, resource) = reader.names().resource(reader.alloc, name.as_str(), at)?;
    reader.mark(Mark::Equal, "`=`")?;
    let from = reader.start();
    let count = reader.number()?;
    Ok(Expected {
        wanted: reader.said(from),
        looked: Looked::Queue(device, resource, count),
    })
}

// How many elements of an array stand before the one at an index.
fn before(reader: &Reader<'_>, at: usize, index: i64, bounds: (i64, i64)) -> Result<u64, Fault> {
    let (low, high) = bounds;
    if low <= index && index <= high {
        Ok(index.abs_diff(low))
    } else {
        let words = ["the array has no element at this index"];
        Err(Fault::at(reader.alloc, at, &words))
    }
}

// The index of an element, where the variable is an array: how many elements stand before it.
fn read_index(reader: &mut Reader<'_>, declared: Declared) -> Result<u64, Fault> {
    match declared.bounds {
        None => Ok(0),
        Some(bounds) => {
            reader.mark(Mark::LBracket, "`[`")?;
            let at = reader.start();
            let index = read_value(reader, ElemType::Lint)?;
            reader.mark(Mark::RBracket, "`]`")?;
            before(reader, at, index, bounds)
        }
    }
}

// The value that a variable is to have, by its name and that of its block.
fn read_held<'a>(
    reader: &mut Reader<'a>,
    block: &str,
    name: &str,
    at: usize,
) -> Result<Expected<'a>, Fault> {
    let place = reader.names().block(reader.alloc, block, at)?;
    let path = reader.names().told(place);
    let declared = find_variable(reader.alloc, place, path, name, at)?;
    let before = read_index(reader, declared)?;
    reader.mark(Mark::Equal, "`=`")?;
    let from = reader.start();
    let value = read_value(reader, declared.of_type)?;
    let variable = Variable {
        place,
        name: String::from_str(reader.alloc, name)?,
        of_type: declared.of_type,
        before,
    };
    Ok(Expected {
        wanted: reader.said(from),
        looked: Looked::Value(variable, value),
    })
}

// The state that a block is to be in, by its name.
fn read_state<'a>(reader: &mut Reader<'a>, name: &str, at: usize) -> Result<Expected<'a>, Fault> {
    let place = reader.names().block(reader.alloc, name, at)?;
    let path = reader.names().told(place);
    let from = reader.start();
    let state = reader.name("the name of a state")?;
    let (block, number) = find_state(reader.alloc, place, path, state, from)?;
    Ok(Expected {
        wanted: reader.said(from),
        looked: Looked::State(place, block, number),
    })
}

// What is to be looked at of a block type alone: its own states and variables are named without it.
fn read_own<'a>(reader: &mut Reader<'a>) -> Result<Expected<'a>, Fault> {
    let at = reader.start();
    if reader.is_word("IN") && reader.has_name_behind() {
        reader.pass();
        return read_state(reader, "", at);
    }
    let path = reader.path("a variable, or IN and a state,")?;
    if reader.take_word("IN") {
        return read_state(reader, path.as_str(), at);
    }
    match path.as_str().rsplit_once('.') {
        Some((block, name)) => read_held(reader, block, name, at),
        None => read_held(reader, "", path.as_str(), at),
    }
}

/// What is to be looked at, behind EXPECT.
pub(crate) fn read_expected<'a>(reader: &mut Reader<'a>) -> Result<Expected<'a>, Fault> {
    if reader.names().block_type().is_some() {
        return read_own(reader);
    }
    if reader.take_word("QUEUE") {
        return read_queue(reader);
    }
    let at = reader.start();
    let path = reader.path("the path of a variable or a block")?;
    if reader.take_word("IN") {
        return read_state(reader, path.as_str(), at);
    }
    match path.as_str().rsplit_once('.') {
        Some((block, name)) => read_held(reader, block, name, at),
        None => Err(reader.expected("`.` and the name of a variable, or IN and a state,")),
    }
}
