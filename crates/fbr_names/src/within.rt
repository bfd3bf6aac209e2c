//! The names of a block type alone: its event inputs, and the blocks within it.

use crate::fault::Fault;
use crate::names::Names;
use crate::near::unknown;
use crate::place::{NumberedLeaf, Sort};
use fbr_alone::{Alone, EventInput};
use std::alloc::{AllocError, Global};

// The names of the blocks within a type.
fn names_within(
    alloc: Global,
    places: &[NumberedLeaf<'_>],
    around: &Alone,
) -> Result<Vec<String>, AllocError> {
    let mut names = Vec::new(alloc);
    for place in places {
        if let Some(name) = around.within(place.inner()) {
            if !name.is_empty() {
                names.push(String::from_str(alloc, name)?)?;
            }
        }
    }
    Ok(names)
}

// That no block within a type has a name. A composite has no variables and states of its own.
fn none_within(
    alloc: Global,
    places: &[NumberedLeaf<'_>],
    around: &Alone,
    name: &str,
    at: usize,
) -> Fault {
    let Ok(names) = names_within(alloc, places, around) else {
        return Fault::Memory;
    };
    let block_type = around.name.as_str();
    if name.is_empty() {
        let words = [
            block_type,
            " is a composite: write the name of a block within it",
        ];
        unknown(alloc, at, &words, &names, name)
    } else {
        let words = ["there is no block ", name, " within ", block_type];
        unknown(alloc, at, &words, &names, name)
    }
}

impl<'a> Names<'a> {
    /// The name of the block type, where it is played alone.
    pub fn block_type(&self) -> Option<&'a str> {
        match self.alone {
            Some(around) => Some(around.name.as_str()),
            None => None,
        }
    }

    /// The block that a name at a byte stands for. Of a block type alone it is a name within the type, and the empty one is the type's instance.
    pub fn block(&self, alloc: Global, name: &str, at: usize) -> Result<NumberedLeaf<'a>, Fault> {
        let Some(around) = self.alone else {
            return self.resolve(alloc, Sort::Block, name, at);
        };
        for place in &self.places {
            if let Some(within) = around.within(place.inner()) {
                if within == name {
                    return Ok(*place);
                }
            }
        }
        Err(none_within(alloc, &self.places, around, name, at))
    }

    /// What people are told in the place of a block's path: of a block type alone its name.
    pub fn told(&self, place: NumberedLeaf<'a>) -> &'a str {
        match self.alone {
            Some(_) => place.inner(),
            None => place.leaf.path.as_str(),
        }
    }

    /// A service within a block type alone that meets the outside by itself.
    pub fn meeting(&self) -> Option<NumberedLeaf<'a>> {
        let around = self.alone?;
        for place in &self.places {
            if place.meets_outside() && around.within(place.inner()).is_some() {
                return Some(*place);
            }
        }
        None
    }
}

/// The event input of a block type alone that a name at a byte stands for.
pub fn find_event<'a>(
    alloc: Global,
    around: &'a Alone,
    name: &str,
    at: usize,
) -> Result<&'a EventInput, Fault> {
    let mut names = Vec::new(alloc);
    for event in &around.events {
        if event.name.as_str() == name {
            return Ok(event);
        }
        names.push(event.name.clone()?)?;
    }
    let words = [around.name.as_str(), " has no event input ", name];
    Err(unknown(alloc, at, &words, &names, name))
}
