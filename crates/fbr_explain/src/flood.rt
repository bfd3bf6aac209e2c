//! Floods of events, told to people.

use fbr_needs::{Flood, Link};
use fbr_places::Writing;

// So many events of a flood are told in one line beside its last one, and so many on a page.
const IN_LINE: usize = 4;

const ON_PAGE: usize = 20;

// A number above which all are told alike.
const COUNTED: u64 = 1_000_000_000_000;

// Writes how many events one becomes.
fn put_count(places: u64, writing: &mut Writing) {
    if places > COUNTED {
        writing.put("more than ");
        writing.show(&COUNTED);
        return;
    }
    writing.show(&places);
}

// The path of an event below its device and resource.
fn below_resource(path: &str) -> &str {
    match path.split_once('.') {
        Some((_, rest)) => match rest.split_once('.') {
            Some((_, below)) => below,
            None => rest,
        },
        None => path,
    }
}

// Writes what the arrival of a flood becomes.
fn put_arrival(arrival: &Link, writing: &mut Writing) {
    writing.put("one event at ");
    writing.put(arrival.path.as_str());
    writing.put(" becomes ");
    put_count(arrival.places, writing);
    writing.put(" at once, more than the 4096 that a queue holds");
}

// Writes an event of a flood, and how many it becomes.
fn put_link(link: &Link, writing: &mut Writing) {
    writing.put(below_resource(link.path.as_str()));
    writing.put(" (");
    put_count(link.places, writing);
    writing.put(")");
}

/// Writes a flood in one line: its arrival, the first events that follow, and the last one; and whether there is an arrival.
pub fn put_flood(flood: &Flood, writing: &mut Writing) -> bool {
    let Some(arrival) = flood.chain.first() else {
        return false;
    };
    put_arrival(arrival, writing);
    writing.put(", by way of ");
    let last = flood.chain.len().saturating_sub(1);
    for (index, link) in flood.chain.iter().enumerate() {
        if index > 0 && (index <= IN_LINE || index == last) {
            if index > 1 {
                writing.put(", ");
            }
            if index == last && last > IN_LINE.saturating_add(1) {
                writing.put(".., ");
            }
            put_link(link, writing);
        }
    }
    true
}

/// Writes a flood, the events that follow its arrival a line each.
pub fn tell_flood(flood: &Flood, writing: &mut Writing) {
    let Some(arrival) = flood.chain.first() else {
        return;
    };
    put_arrival(arrival, writing);
    writing.put(":\n");
    for (index, link) in flood.chain.iter().enumerate() {
        if index < ON_PAGE {
            writing.put("    ");
            put_count(link.places, writing);
            writing.put(" at ");
            writing.put(link.path.as_str());
            writing.put("\n");
        }
    }
    if flood.chain.len() > ON_PAGE {
        writing.put("    ..\n");
    }
}
