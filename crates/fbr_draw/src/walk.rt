//! What of a walk is drawn.

use fb_faults::Place;
use fbr_needs::Step;

// Whether a path is that of something in a leaf.
fn is_in(path: &str, leaf: &str) -> bool {
    match path.rsplit_once('.') {
        Some((around, _)) => around == leaf,
        None => false,
    }
}

/// Whether a place is a state or an event of a leaf.
pub fn is_at(place: &Place, leaf: &str) -> bool {
    match place {
        Place::State(path) | Place::Event(path) => is_in(path.as_str(), leaf),
        Place::Channel(_) => false,
    }
}

/// Whether a place is an event input or the arrival of a leaf.
pub fn is_event(place: &Place, leaf: &str, event: &str) -> bool {
    match place {
        Place::Event(path) => match path.rsplit_once('.') {
            Some((around, name)) => around == leaf && name == event,
            None => false,
        },
        Place::State(_) | Place::Channel(_) => false,
    }
}

/// Whether a place is a channel.
pub fn is_channel(place: &Place, channel: u16) -> bool {
    match place {
        Place::Channel(number) => *number == channel,
        Place::State(_) | Place::Event(_) => false,
    }
}

/// Whether a walk comes to a leaf.
pub fn comes_to(walk: &[Step<'_>], leaf: &str) -> bool {
    for step in walk {
        let place = step.place;
        if is_at(place, leaf) {
            return true;
        }
    }
    false
}

/// Whether a walk comes to an event input or the arrival of a leaf.
pub fn comes_to_event(walk: &[Step<'_>], leaf: &str, event: &str) -> bool {
    for step in walk {
        let place = step.place;
        if is_event(place, leaf, event) {
            return true;
        }
    }
    false
}

/// Whether a walk comes to a channel.
pub fn comes_to_channel(walk: &[Step<'_>], channel: u16) -> bool {
    for step in walk {
        let place = step.place;
        if is_channel(place, channel) {
            return true;
        }
    }
    false
}

/// Whether a walk goes on from a leaf to an event input of a leaf.
pub fn goes_to_event(walk: &[Step<'_>], from: &str, leaf: &str, event: &str) -> bool {
    let mut was_there = false;
    for step in walk {
        let place = step.place;
        if was_there && is_event(place, leaf, event) {
            return true;
        }
        was_there = is_at(place, from);
    }
    false
}

/// Whether a walk goes on from a leaf to a channel.
pub fn goes_to_channel(walk: &[Step<'_>], from: &str, channel: u16) -> bool {
    let mut was_there = false;
    for step in walk {
        let place = step.place;
        if was_there && is_channel(place, channel) {
            return true;
        }
        was_there = is_at(place, from);
    }
    false
}

/// Whether a walk goes on from a channel to a leaf.
pub fn leaves_channel(walk: &[Step<'_>], channel: u16, leaf: &str) -> bool {
    let mut was_there = false;
    for step in walk {
        let place = step.place;
        if was_there && is_at(place, leaf) {
            return true;
        }
        was_there = is_channel(place, channel);
    }
    false
}

/// The name of the state that a place is, if it is one of a leaf.
pub fn state_of<'a>(place: &'a Place, leaf: &str) -> Option<&'a str> {
    match place {
        Place::State(path) => match path.rsplit_once('.') {
            Some((around, name)) => (around == leaf).then_some(name),
            None => None,
        },
        Place::Event(_) | Place::Channel(_) => None,
    }
}
