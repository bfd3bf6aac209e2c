//! Variables and states of blocks, by their names.

use crate::fault::Fault;
use crate::near::unknown;
use crate::place::NumberedLeaf;
use fb_flat::Body;
use fb_types_blocks::{Block, Variables};
use fb_words::ElemType;
use std::alloc::{AllocError, Global};

/// What a variable of a block is declared as: its type, and the lowest and the highest index of an array.
#[derive(Clone, Copy)]
pub struct Declared {
    pub of_type: ElemType,
    pub bounds: Option<(i64, i64)>,
}

// A variable of one of these declarations.
fn declared_in(variables: &Variables, name: &str) -> Option<Declared> {
    let variable = variables.get(name)?;
    Some(Declared {
        of_type: variable.of_type,
        bounds: variable.bounds,
    })
}

// A variable of a basic block.
fn declared_of(block: &Block, name: &str) -> Option<Declared> {
    let face = &block.face;
    declared_in(&face.inputs, name)
        .or(declared_in(&face.outputs, name))
        .or(declared_in(&block.internals, name))
}

// What a variable of an instance is declared as.
fn declaration_at(place: NumberedLeaf<'_>, name: &str) -> Option<Declared> {
    match &place.leaf.body {
        Body::Basic(block) => declared_of(block, name),
        Body::Served(service) => {
            let of_type = service.input(name).or(service.output(name))?;
            Some(Declared {
                of_type,
                bounds: None,
            })
        }
    }
}

// Adds the names of these declarations.
fn add_names(variables: &Variables, names: &mut Vec<String>) -> Result<(), AllocError> {
    for index in 0..variables.len() {
        if let Some((name, _)) = variables.get_index(index) {
            names.push(name.clone()?)?;
        }
    }
    Ok(())
}

// The names of the variables of an instance.
fn names_of(alloc: Global, place: NumberedLeaf<'_>) -> Result<Vec<String>, AllocError> {
    match &place.leaf.body {
        Body::Basic(block) => {
            let mut names = Vec::new(alloc);
            add_names(&block.face.inputs, &mut names)?;
            add_names(&block.face.outputs, &mut names)?;
            add_names(&block.internals, &mut names)?;
            Ok(names)
        }
        Body::Served(service) => {
            let mut names = service.inputs(alloc)?;
            let outputs = service.outputs(alloc)?;
            for name in &outputs {
                names.push(name.clone()?)?;
            }
            Ok(names)
        }
    }
}

/// What the variable of an instance is declared as that has a name. People are told of the instance by its path.
pub fn find_variable(
    alloc: Global,
    place: NumberedLeaf<'_>,
    path: &str,
    name: &str,
    at: usize,
) -> Result<Declared, Fault> {
    match declaration_at(place, name) {
        Some(found) => Ok(found),
        None => {
            let names = names_of(alloc, place)?;
            let words = [path, " has no variable ", name];
            Err(unknown(alloc, at, &words, &names, name))
        }
    }
}

// The names of the states of a block.
fn states_of(alloc: Global, block: &Block) -> Result<Vec<String>, AllocError> {
    let mut names = Vec::new(alloc);
    for index in 0..block.states.len() {
        if let Some((name, _)) = block.states.get_index(index) {
            names.push(name.clone()?)?;
        }
    }
    Ok(names)
}

/// The block of an instance, and the number of its state that has a name.
pub fn find_state<'a>(
    alloc: Global,
    place: NumberedLeaf<'a>,
    path: &str,
    name: &str,
    at: usize,
) -> Result<(&'a Block, u16), Fault> {
    let body: &'a Body = &place.leaf.body;
    let Body::Basic(block) = body else {
        return Err(Fault::at(alloc, at, &[path, " has no states"]));
    };
    match block.states.get_index_of(name) {
        Some(index) => Ok((block, u16::try_from(index).unwrap_or(u16::MAX))),
        None => {
            let names = states_of(alloc, block)?;
            let words = [path, " has no state ", name];
            Err(unknown(alloc, at, &words, &names, name))
        }
    }
}
