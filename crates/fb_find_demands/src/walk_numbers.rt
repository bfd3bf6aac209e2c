//! The numbers of places that are shown.

ghost use Rattle.std.specs.Prelude.{◌≡◌, map, IfOk};
ghost use Rattle.fb_model.specs.CertificateText.{place_of};
ghost use Rattle.fb_model.specs.Demands.{event, state};
ghost use Rattle.fb_find_demands.specs.Shown.{shown_node, sought};

use crate::Numbering;
use fb_faults::Place;
use std::alloc::{AllocError, Global};

// The number of a state by its path; where there is none, the first number that no node has.
fn state_number(numbering: &Numbering, path: &str) -> Result<usize, AllocError>
    ensures { IfOk result (λ n. n ≡ sought numbering.now (state (place_of path.now))) }
{
    let end = numbering.count()?;
    match numbering.states.get_index_of(path) {
        Some(index) => Ok(index),
        None => Ok(end),
    }
}

// The same of an event input or arrival.
fn event_number(numbering: &Numbering, path: &str) -> Result<usize, AllocError>
    ensures { IfOk result (λ n. n ≡ sought numbering.now (event (place_of path.now))) }
{
    let end = numbering.count()?;
    let states = numbering.states.len();
    let _ = numbering.events.len();
    match numbering.events.get_index_of(path) {
        Some(index) => Ok(states + index),
        None => Ok(end),
    }
}

// The number of a place, by its path in upper case.
fn number_of(alloc: Global, numbering: &Numbering, place: &Place) -> Result<usize, AllocError>
    ensures { IfOk result (λ n. n ≡ sought numbering.now (shown_node place.now)) }
{
    match place {
        Place::State(path) => {
            let upper = path.to_ascii_uppercase(alloc)?;
            state_number(numbering, upper.as_str())
        }
        Place::Event(path) => {
            let upper = path.to_ascii_uppercase(alloc)?;
            event_number(numbering, upper.as_str())
        }
        Place::Channel(number) => numbering.channel(*number),
    }
}

/// The numbers of places.
pub(crate) fn numbers_of(
    alloc: Global,
    numbering: &Numbering,
    places: &[Place],
) -> Result<Vec<usize>, AllocError>
    ensures { IfOk result (λ v. v.items ≡ map (λ p. sought numbering.now (shown_node p)) places.now) }
{
    let mut numbers = Vec::new(alloc);
    for place in places {
        numbers.push(number_of(alloc, numbering, place)?)?;
    }
    Ok(numbers)
}
