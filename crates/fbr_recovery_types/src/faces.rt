//! Interfaces of block types, whatever is at fault in them.

use crate::variables::{declare, known, variables_of};
use fb_faults::TypeFault;
use fb_tree::{BlockTree, EventTree};
use fb_types_blocks::{Events, Face, Variables};
use fbr_recovery_found::Found;
use indexmap::{IndexMap, IndexSet};
use std::alloc::{AllocError, Global};

// The most event inputs of a block, and the most event outputs, inputs and outputs.
const PORTS: usize = 64;

// Declares the names of events.
fn declare_events(
    list: &[EventTree],
    names: &mut IndexSet<String>,
    found: &mut Found<'_>,
) -> Result<(), AllocError> {
    if let Some(event) = list.get(PORTS) {
        found.typing(TypeFault::Limit(event.name.at))?;
    }
    for event in list {
        declare(names, &event.name, found)?;
    }
    Ok(())
}

// Events WITH these variables.
fn events_of(
    alloc: Global,
    list: &[EventTree],
    variables: &Variables,
    found: &mut Found<'_>,
) -> Result<Events, AllocError> {
    let mut events = IndexMap::new(alloc);
    for event in list {
        for name in &event.carries {
            known(variables.contains_key(name.text.as_str()), name, found)?;
        }
        if !events.contains_key(event.name.text.as_str()) {
            events.insert(event.name.text.clone()?, Vec::new(alloc))?;
        }
    }
    Ok(events)
}

// Adds the variables and then the events of an interface, which has none yet.
fn fill(
    alloc: Global,
    block: &BlockTree,
    names: &mut IndexSet<String>,
    found: &mut Found<'_>,
    face: &mut Face,
) -> Result<(), AllocError> {
    face.inputs = variables_of(alloc, &block.inputs, PORTS, names, found)?;
    face.outputs = variables_of(alloc, &block.outputs, PORTS, names, found)?;
    face.event_inputs = events_of(alloc, &block.event_inputs, &face.inputs, found)?;
    face.event_outputs = events_of(alloc, &block.event_outputs, &face.outputs, found)?;
    Ok(())
}

/// The interface of a block type, without what the events are WITH, and the names that it declares.
pub(crate) fn face_of(
    alloc: Global,
    block: &BlockTree,
    names: &mut IndexSet<String>,
    found: &mut Found<'_>,
) -> Result<Face, AllocError> {
    declare_events(&block.event_inputs, names, found)?;
    declare_events(&block.event_outputs, names, found)?;
    let mut face = Face {
        event_inputs: IndexMap::new(alloc),
        event_outputs: IndexMap::new(alloc),
        inputs: IndexMap::new(alloc),
        outputs: IndexMap::new(alloc),
    };
    fill(alloc, block, names, found, &mut face)?;
    Ok(face)
}
