//! What the event inputs of a block type carry, and the numbers of the INPUTs that offer it.

use fb_tree::BlockTree;
use fb_words::ElemType;
use fbr_places::type_named;
use std::alloc::{AllocError, Global};

/// The number of the INPUT of the first event input.
const FIRST_EVENT: u16 = 50_000;
/// The number of the INPUT that would hold the first data input.
const FIRST_HOLDER: u16 = 51_000;
/// The most values of an INPUT.
const MOST_VALUES: usize = 16;

/// A data input that an event input carries.
#[derive(Drop)]
pub struct Argument {
    /// In upper case.
    pub name: String,
    pub of_type: ElemType,
    /// The number of an INPUT of its own, which is offered the value first. It has one where several event inputs carry it, since a data input takes one
    /// connection alone, and where the INPUT of its event has no room for it.
    pub holder: Option<u16>,
}

/// An event input: its name in upper case, the number of its INPUT, and what it carries.
#[derive(Drop)]
pub struct EventInput {
    pub name: String,
    pub input: u16,
    pub arguments: Vec<Argument>,
}

// The number that stands so far behind another one.
fn number(first: u16, index: usize) -> u16 {
    first.saturating_add(u16::try_from(index).unwrap_or(u16::MAX))
}

// How many event inputs carry a data input.
fn carriers(block: &BlockTree, name: &str) -> usize {
    let mut count: usize = 0;
    for event in &block.event_inputs {
        for carried in &event.carries {
            if carried.text.as_str() == name {
                count = count.saturating_add(1);
            }
        }
    }
    count
}

/// The number of the INPUT that would hold a data input.
pub(crate) fn holder_of(block: &BlockTree, name: &str) -> u16 {
    let mut index: usize = 0;
    for variables in &block.inputs {
        for declared in &variables.names {
            if declared.text.as_str() == name {
                return number(FIRST_HOLDER, index);
            }
            index = index.saturating_add(1);
        }
    }
    number(FIRST_HOLDER, index)
}

// What the event input of a number carries.
fn arguments_of(
    alloc: Global,
    block: &BlockTree,
    index: usize,
) -> Result<Vec<Argument>, AllocError> {
    let mut arguments = Vec::new(alloc);
    let Some(event) = block.event_inputs.get(index) else {
        return Ok(arguments);
    };
    for (place, carried) in event.carries.iter().enumerate() {
        let name = carried.text.as_str();
        if let Some(of_type) = type_named(&block.inputs, name) {
            let has_holder = carriers(block, name) > 1 || place >= MOST_VALUES;
            arguments.push(Argument {
                name: carried.text.clone()?,
                of_type,
                holder: if has_holder {
                    Some(holder_of(block, name))
                } else {
                    None
                },
            })?;
        }
    }
    Ok(arguments)
}

/// The event inputs of a block type, in text order.
pub(crate) fn event_inputs(
    alloc: Global,
    block: &BlockTree,
) -> Result<Vec<EventInput>, AllocError> {
    let mut events = Vec::new(alloc);
    for (index, event) in block.event_inputs.iter().enumerate() {
        events.push(EventInput {
            name: event.name.text.clone()?,
            input: number(FIRST_EVENT, index),
            arguments: arguments_of(alloc, block, index)?,
        })?;
    }
    Ok(events)
}
