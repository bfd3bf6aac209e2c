//! The numbers of a block at which a range that grows may end.

use crate::number::{add_list, add_term};
use fb_flat::{Body, Leaf};
use fb_types_blocks::{Block, Variable, Variables};
use std::alloc::{AllocError, Global};

// Adds a number.
fn add(number: Option<i64>, numbers: &mut Vec<i64>) -> Result<(), AllocError> {
    if let Some(number) = number {
        numbers.push(number)?;
    }
    Ok(())
}

// Adds those of a declaration: the bounds of an array, and the start value.
fn add_declared(variable: &Variable, numbers: &mut Vec<i64>) -> Result<(), AllocError> {
    add(variable.start, numbers)?;
    if let Some((low, high)) = variable.bounds {
        numbers.push(low)?;
        numbers.push(high)?;
    }
    Ok(())
}

// Adds those of declarations.
fn add_variables(variables: &Variables, numbers: &mut Vec<i64>) -> Result<(), AllocError> {
    for index in 0..variables.len() {
        let Some((_, variable)) = variables.get_index(index) else {
            return Ok(());
        };
        add_declared(variable, numbers)?;
    }
    Ok(())
}

// Adds those of algorithms.
fn add_algorithms(block: &Block, numbers: &mut Vec<i64>) -> Result<(), AllocError> {
    for index in 0..block.procedures.len() {
        let Some((_, algo)) = block.procedures.get_index(index) else {
            return Ok(());
        };
        add_list(&algo.statements, numbers)?;
    }
    Ok(())
}

// Adds those of guards.
fn add_guards(block: &Block, numbers: &mut Vec<i64>) -> Result<(), AllocError> {
    for transition in &block.transitions {
        if let Some(guard) = &transition.guard {
            add_term(guard, numbers)?;
        }
    }
    Ok(())
}

// Adds all numbers of a block.
fn add_block(block: &Block, numbers: &mut Vec<i64>) -> Result<(), AllocError> {
    add_variables(&block.face.inputs, numbers)?;
    add_variables(&block.face.outputs, numbers)?;
    add_variables(&block.internals, numbers)?;
    add_algorithms(block, numbers)?;
    add_guards(block, numbers)
}

/// The numbers that stand in the block of a leaf.
pub(crate) fn landmarks(alloc: Global, leaf: &Leaf) -> Result<Vec<i64>, AllocError> {
    let mut numbers = Vec::new(alloc);
    if let Body::Basic(block) = &leaf.body {
        add_block(block, &mut numbers)?;
    }
    Ok(numbers)
}

// The lesser of two numbers that are both above or at a third; the second where the first is below.
fn nearer_above(least: i64, candidate: i64, found: Option<i64>) -> Option<i64> {
    if candidate < least {
        return found;
    }
    match found {
        Some(number) => Some(number.min(candidate)),
        None => Some(candidate),
    }
}

// The same from below.
fn nearer_below(most: i64, candidate: i64, found: Option<i64>) -> Option<i64> {
    if most < candidate {
        return found;
    }
    match found {
        Some(number) => Some(number.max(candidate)),
        None => Some(candidate),
    }
}

/// The least landmark, or number beside one, that is no less than this.
pub(crate) fn landmark_above(landmarks: &[i64], number: i64) -> Option<i64> {
    let mut found = None;
    for landmark in landmarks {
        found = nearer_above(number, landmark.saturating_sub(1), found);
        found = nearer_above(number, *landmark, found);
        found = nearer_above(number, landmark.saturating_add(1), found);
    }
    found
}

/// The greatest that is no greater than this.
pub(crate) fn landmark_below(landmarks: &[i64], number: i64) -> Option<i64> {
    let mut found = None;
    for landmark in landmarks {
        found = nearer_below(number, landmark.saturating_sub(1), found);
        found = nearer_below(number, *landmark, found);
        found = nearer_below(number, landmark.saturating_add(1), found);
    }
    found
}
