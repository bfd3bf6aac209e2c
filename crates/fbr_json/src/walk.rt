//! Walks, place by place.

use crate::places::put_place;
use fb_faults::Place;
use fbr_diagnosis::{Asked, Diagnosis};
use fbr_needs::{Step, Way};
use fbr_objects::{List, Object};
use fbr_places::{Located, declared_at};
use std::alloc::Global;

// So many places of a walk are looked up in the text: each look-up reads the text up to there.
const LOCATED: usize = 256;

// The path of a place, if it is none of a channel.
fn path_of(place: &Place) -> Option<&str> {
    match place {
        Place::State(path) | Place::Event(path) => Some(path.as_str()),
        Place::Channel(_) => None,
    }
}

// Where the place of a step is declared.
fn located<'a>(asked: Asked<'a>, diagnosis: &Diagnosis<'_>, place: &Place) -> Option<Located<'a>> {
    let system = diagnosis.reading.system()?;
    let declared = declared_at(system.file(), path_of(place)?)?;
    asked.app.at_byte(declared.at())
}

// What a place is.
fn put_kind(place: &Place, object: &mut Object) {
    match place {
        Place::State(path) => {
            object.text("kind", "state");
            object.text("path", path.as_str());
        }
        Place::Event(path) => {
            object.text("kind", "event");
            object.text("path", path.as_str());
        }
        Place::Channel(number) => {
            object.text("kind", "channel");
            object.number("channel", u64::from(*number));
        }
    }
}

// How a place leads to the next one.
fn way_object(alloc: Global, way: Way<'_>) -> Object {
    let mut object = Object::new(alloc);
    match way {
        Way::Emits(output, event) => {
            object.text("by", "emits");
            object.text("output", output);
            object.text("event", event);
        }
        Way::Free(state) => {
            object.text("by", "free-transition");
            object.text("state", state);
        }
        Way::Opens(state) => {
            object.text("by", "transition");
            object.text("state", state);
        }
        Way::Arrives(event) => {
            object.text("by", "arrives");
            object.text("event", event);
        }
        Way::Sends(channel) => {
            object.text("by", "sends");
            object.number("channel", u64::from(channel));
        }
    }
    object
}

/// The places of a walk, each with how it leads to the next, and the first ones with where they are declared.
pub fn walk_list(asked: Asked<'_>, diagnosis: &Diagnosis<'_>, steps: &[Step<'_>]) -> List {
    let mut list = List::new(asked.alloc);
    let mut left = LOCATED;
    for step in steps {
        let mut object = Object::new(asked.alloc);
        put_kind(step.place, &mut object);
        if let Some(way) = step.way {
            object.object("next", way_object(asked.alloc, way));
        }
        if left > 0 {
            left = left.saturating_sub(1);
            let place = located(asked, diagnosis, step.place);
            put_place(asked.alloc, place.as_ref(), &mut object);
        }
        list.object(object);
    }
    list
}
