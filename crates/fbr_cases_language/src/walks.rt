//! Walks that are shown.

use crate::case::Case;
use crate::systems::typed;
use crate::text::refused;
use fb_check::{Place, check_walk};
use std::alloc::{AllocError, Global};

// The place of a line: `state PATH`, `event PATH`, or `channel NUMBER`.
fn place(alloc: Global, line: &str) -> Result<Place, AllocError> {
    if let Some(path) = line.strip_prefix("state ") {
        return Ok(Place::State(String::from_str(alloc, path)?));
    }
    if let Some(number) = line.strip_prefix("channel ") {
        return Ok(Place::Channel(number.parse::<u16>().unwrap_or(0)));
    }
    let path = line.strip_prefix("event ").unwrap_or("");
    Ok(Place::Event(String::from_str(alloc, path)?))
}

// The places of lines.
fn places(alloc: Global, text: &str) -> Result<Vec<Place>, AllocError> {
    let mut places = Vec::new(alloc);
    for line in text.lines() {
        places.push(place(alloc, line)?)?;
    }
    Ok(places)
}

/// Whether the places that the section `places` names are a closed walk of demands, or the refusal; with a section `repeats` of those of the network.
pub fn walks(alloc: Global, case: &Case<'_>) -> Result<String, AllocError> {
    let places = places(alloc, case.text("places"))?;
    let repeats = case.text("repeats").trim().parse::<u8>().ok();
    match typed(alloc, case)? {
        Ok(typed) => {
            let walk = check_walk(alloc, &typed, repeats, places.as_slice());
            typed.let_go();
            match walk {
                Ok(true) => String::from_str(alloc, "true"),
                Ok(false) => String::from_str(alloc, "false"),
                Err(fault) => refused(alloc, &fault),
            }
        }
        Err(refusal) => Ok(refusal),
    }
}
