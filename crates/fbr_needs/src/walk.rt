//! Walks, place by place, and how each place leads to the next.

use crate::led::led_at;
use fb_faults::Place;
use fb_flat::{Flat, Leaf};
use fb_tree::FileTree;
use fbr_leaves::{Numbers, leaves_of, numbered};
use fbr_places::{Located, Named};
use std::alloc::{AllocError, Global};

// So many places of a walk are looked up in the text: each look-up reads the text up to there.
const LOCATED: usize = 64;

/// How a place leads to the next one of a walk.
#[derive(Clone, Copy)]
pub enum Way<'a> {
    /// It emits the event output of this name, which is connected to the event of this path.
    Emits(&'a str, &'a str),
    /// A transition without an event leads to the state of this name.
    Free(&'a str),
    /// A transition that it opens leads to the state of this name.
    Opens(&'a str),
    /// Its datagrams come to the event of this path.
    Arrives(&'a str),
    /// It sends a datagram of this channel.
    Sends(u16),
}

/// A place of a walk, and how it leads to the next, where that is known.
#[derive(Clone, Copy)]
pub struct Step<'a> {
    pub place: &'a Place,
    pub way: Option<Way<'a>>,
    /// Where the text says how it leads there, of the first places.
    pub at: Option<Located<'a>>,
}

/// The text of a walk, its tree, and its leaves.
#[derive(Clone, Copy)]
pub struct Grounds<'a> {
    pub app: Named<'a>,
    pub file: &'a FileTree,
    pub flat: &'a Flat,
}

// The event output of a leaf that leads to the event input of a path.
fn output_to<'a>(leaf: &'a Leaf, path: &str) -> Option<&'a str> {
    let (front, event) = path.rsplit_once('.')?;
    for output in &leaf.outputs {
        for target in &output.targets {
            if target.path.as_str() == front && target.event.as_str() == event {
                return Some(output.name.as_str());
            }
        }
    }
    None
}

// All leaves, by the numbers of their paths.
#[derive(Clone, Copy)]
struct Leaves<'a, 'b> {
    leaves: &'b [&'a Leaf],
    numbers: &'b Numbers,
}

// How a place of a leaf leads to an event.
fn way_to_event<'a>(leaves: Leaves<'a, '_>, from: &str, to: &'a str) -> Option<Way<'a>> {
    let (path, _) = from.rsplit_once('.')?;
    let number = leaves.numbers.get(path).copied()?;
    let leaf: &'a Leaf = *leaves.leaves.get(number)?;
    Some(Way::Emits(output_to(leaf, to)?, to))
}

// How a place leads to a state of its chart.
fn way_to_state<'a>(from: &Place, to: &'a str) -> Option<Way<'a>> {
    let name = match to.rsplit_once('.') {
        Some((_, name)) => name,
        None => to,
    };
    match from {
        Place::State(_) => Some(Way::Free(name)),
        Place::Event(_) => Some(Way::Opens(name)),
        Place::Channel(_) => None,
    }
}

// How a place leads to the next one of a walk.
fn way_to<'a>(leaves: Leaves<'a, '_>, from: &Place, to: &'a Place) -> Option<Way<'a>> {
    match to {
        Place::State(path) => way_to_state(from, path.as_str()),
        Place::Event(path) => match from {
            Place::State(begin) | Place::Event(begin) => {
                way_to_event(leaves, begin.as_str(), path.as_str())
            }
            Place::Channel(_) => Some(Way::Arrives(path.as_str())),
        },
        Place::Channel(number) => Some(Way::Sends(*number)),
    }
}

// A place of a walk, which leads to the next one.
fn step_to<'a>(
    grounds: Grounds<'a>,
    leaves: Leaves<'a, '_>,
    place: &'a Place,
    next: &'a Place,
    index: usize,
) -> Step<'a> {
    let way = way_to(leaves, place, next);
    let byte = match way {
        Some(way) if index < LOCATED => led_at(grounds.file, place, next, way),
        _ => None,
    };
    let at = match byte {
        Some(byte) => grounds.app.at_byte(byte),
        None => None,
    };
    Step { place, way, at }
}

/// The places of a walk, each with how it leads to the next.
pub fn steps_of<'a>(
    alloc: Global,
    grounds: Grounds<'a>,
    places: &'a [Place],
) -> Result<Vec<Step<'a>>, AllocError> {
    let listed = leaves_of(alloc, grounds.flat)?;
    let numbers = numbered(alloc, listed.as_slice())?;
    let leaves = Leaves {
        leaves: listed.as_slice(),
        numbers: &numbers,
    };
    let mut steps = Vec::new(alloc);
    for (index, place) in places.iter().enumerate() {
        steps.push(match places.get(index.saturating_add(1)) {
            Some(next) => step_to(grounds, leaves, place, next, index),
            None => Step {
                place,
                way: None,
                at: None,
            },
        })?;
    }
    Ok(steps)
}
