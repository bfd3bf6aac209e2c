//! How much fits into a queue at once.

use fbr_needs::{Arrival, ArrivalKind, Queue};
use fbr_places::Writing;

// So many others are named.
const NAMED: usize = 3;

/// Writes how deep a resource's queue is, and which depth takes each arrival once where it does not.
pub fn tell_depth(queue: &Queue<'_>, writing: &mut Writing) {
    writing.put(queue.path);
    writing.put(": depth of the queue ");
    writing.show(&queue.depth);
    let places = queue.places();
    if places > queue.depth {
        writing.put(", and ");
        writing.show(&places);
        writing.put(" takes each arrival once");
    }
    writing.put("\n");
}

// Writes that the queue takes one of an arrival, and what becomes of a second one meanwhile. A timer that finds no room stays due; a BEGIN comes once.
fn tell_single(arrival: &Arrival, writing: &mut Writing) {
    match arrival.kind {
        ArrivalKind::Input | ArrivalKind::Subscribe => {
            writing.put("; a second one is denied while one is under way");
        }
        ArrivalKind::Timer => writing.put("; a second one waits while one is under way"),
        ArrivalKind::Begin => {}
    }
}

// Writes how many of an arrival the queue takes at once.
fn tell_fitting(queue: &Queue<'_>, arrival: &Arrival, writing: &mut Writing) {
    let count = queue.fitting(arrival);
    if count < 2 {
        tell_single(arrival, writing);
    } else if !arrival.is_begin() {
        writing.put("; ");
        writing.show(&count);
        writing.put(" fit at once");
    }
}

// Whether an arrival is another one, for which there is no room.
fn is_crowded(arrival: &Arrival, path: &str, room: u64) -> bool {
    arrival.path.as_str() != path && arrival.places > room
}

// How many other arrivals have no room.
fn count_crowded(queue: &Queue<'_>, path: &str, room: u64) -> usize {
    let mut others: usize = 0;
    for arrival in &queue.arrivals {
        if is_crowded(arrival, path, room) {
            others = others.saturating_add(1);
        }
    }
    others
}

// Writes the first of the other arrivals that have no room.
fn tell_crowded(queue: &Queue<'_>, path: &str, room: u64, writing: &mut Writing) {
    let mut told: usize = 0;
    for arrival in &queue.arrivals {
        if told < NAMED && is_crowded(arrival, path, room) {
            writing.put(if told == 0 { "; not beside " } else { ", " });
            writing.put(queue.within(arrival));
            told = told.saturating_add(1);
        }
    }
}

// Writes the other arrivals that have no room beside one.
fn tell_others(queue: &Queue<'_>, beside: &Arrival, writing: &mut Writing) {
    let path = beside.path.as_str();
    let room = queue.depth.saturating_sub(beside.places);
    let others = count_crowded(queue, path, room);
    if others > 0 && others.saturating_add(1) == queue.arrivals.len() {
        writing.put("; nothing else fits beside it");
        return;
    }
    tell_crowded(queue, path, room, writing);
    if others > NAMED {
        writing.put(" and ");
        writing.show(&others.saturating_sub(NAMED));
        writing.put(" more");
    }
}

/// Goes on with how many of an arrival a queue takes at once, and with the other arrivals for which there is no room beside one of it.
pub fn tell_beside(queue: &Queue<'_>, path: &str, writing: &mut Writing) {
    for arrival in &queue.arrivals {
        if arrival.path.as_str() == path {
            tell_fitting(queue, arrival, writing);
            tell_others(queue, arrival, writing);
        }
    }
}
