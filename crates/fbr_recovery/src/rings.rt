//! Composites inside themselves.

use fb_faults::TypeFault;
use fb_tree::{BlockTree, BodyTree, InstanceTree};
use fbr_recovery_found::Found;
use fbr_recovery_types::Types;
use std::alloc::{AllocError, Global};

// A type on the way, and how many of its instances were looked at.
#[derive(Clone, Copy)]
struct Step {
    number: usize,
    passed: usize,
}

// Where a type stands in the search.
const NEW: u8 = 0;

const OPEN: u8 = 1;

const DONE: u8 = 2;

// The instances of a type, where it is a composite.
fn instances_of(blocks: &[BlockTree], number: usize) -> &[InstanceTree] {
    match blocks.get(number) {
        Some(block) => match &block.body {
            BodyTree::Network(network) => &network.instances,
            BodyTree::Chart(_) => &[],
        },
        None => &[],
    }
}

// Marks a type.
fn mark(marks: &mut Vec<u8>, number: usize, value: u8) {
    if let Some(found) = marks.get_mut(number) {
        *found = value;
    }
}

// Searches on from the type at the end of the path.
fn search_on(
    blocks: &[BlockTree],
    types: &Types,
    path: &mut Vec<Step>,
    marks: &mut Vec<u8>,
    found: &mut Found<'_>,
) -> Result<(), AllocError> {
    let Some(step) = path.pop() else {
        return Ok(());
    };
    let Some(instance) = instances_of(blocks, step.number).get(step.passed) else {
        mark(marks, step.number, DONE);
        return Ok(());
    };
    path.push(Step {
        number: step.number,
        passed: step.passed.saturating_add(1),
    })?;
    let Some(number) = types.number(instance.of_type.text.as_str()) else {
        return Ok(());
    };
    match marks.get(number).copied() {
        Some(NEW) => {
            mark(marks, number, OPEN);
            path.push(Step { number, passed: 0 })?;
            Ok(())
        }
        Some(OPEN) => found.typing(TypeFault::RecursiveComposite(instance.of_type.at)),
        _ => Ok(()),
    }
}

/// Tells where composites are inside themselves. Each instance is looked at once.
pub(crate) fn tell_rings(
    alloc: Global,
    blocks: &[BlockTree],
    types: &Types,
    found: &mut Found<'_>,
) -> Result<(), AllocError> {
    let mut marks = Vec::new(alloc);
    marks.resize(blocks.len(), NEW)?;
    let mut path = Vec::new(alloc);
    for root in 0..blocks.len() {
        let mut steps: usize = 0;
        if marks.get(root).copied() == Some(NEW) {
            mark(&mut marks, root, OPEN);
            path.push(Step {
                number: root,
                passed: 0,
            })?;
            steps = usize::MAX;
        }
        // A path comes to its end: each step passes an instance or leaves a type.
        for _ in 0..steps {
            if path.is_empty() {
                break;
            }
            search_on(blocks, types, &mut path, &mut marks, found)?;
        }
    }
    Ok(())
}
