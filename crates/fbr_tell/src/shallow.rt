//! What people are told on standard error where a certificate is accepted and a queue does not take each arrival once. It is tested, and no
//! contract says it.

use crate::line::hand_out;
use fb_verified::Verified;
use fbr_needs::{Arrival, ArrivalKind, Queue, queue_in};
use fbr_places::Writing;
use std::alloc::{AllocError, Global};
use std::io::Write;

// The most resources that are told.
const MOST_TOLD: usize = 3;

// The most places that a row DEPTH can say.
const MOST_PLACES: u64 = 4096;

// Whether an arrival takes more places than what was found so far.
fn is_larger(arrival: &Arrival, found: Option<&Arrival>) -> bool {
    match found {
        Some(found) => arrival.places > found.places,
        None => true,
    }
}

// The arrival with the most places, of several the first. A BEGIN comes once, so it counts only if it alone takes the most and one of it fills the queue.
fn largest<'a>(queue: &'a Queue<'_>) -> Option<&'a Arrival> {
    let mut found: Option<&Arrival> = None;
    for arrival in &queue.arrivals {
        if !arrival.is_begin() && is_larger(arrival, found) {
            found = Some(arrival);
        }
    }
    for arrival in &queue.arrivals {
        if arrival.is_begin() && queue.fitting(arrival) == 1 && is_larger(arrival, found) {
            found = Some(arrival);
        }
    }
    found
}

// An arrival as people call it: an INPUT by its name alone.
fn name_of<'a>(queue: &Queue<'_>, arrival: &'a Arrival) -> &'a str {
    let path = queue.within(arrival);
    match (arrival.kind, path.rsplit_once('.')) {
        (ArrivalKind::Input, Some((name, _))) => name,
        _ => path,
    }
}

// Writes how many of an arrival fill a queue.
fn write_filled(queue: &Queue<'_>, arrival: &Arrival, writing: &mut Writing) {
    let count = queue.fitting(arrival);
    writing.put(" is full after ");
    if count == 1 {
        writing.put("one");
    } else {
        writing.show(&count);
    }
    writing.put(" ");
    writing.put(name_of(queue, arrival));
    writing.put(" (");
    writing.show(&arrival.places);
    writing.put(if arrival.places == 1 {
        " place"
    } else {
        " places"
    });
    writing.put(if count == 1 { ")" } else { " each)" });
}

// Writes the depth with room for each arrival twice, which is more than the queue has, where a row can say it.
fn write_twice(queue: &Queue<'_>, writing: &mut Writing) {
    let depth = queue.places().saturating_mul(2);
    if depth <= MOST_PLACES {
        writing.put("; --room 2 takes each twice (DEPTH ");
        writing.show(&depth);
        writing.put(")");
    }
}

/// Whether a queue does not take each of its arrivals once at the same time.
pub fn is_shallow(queue: &Queue<'_>) -> bool {
    queue.places() > queue.depth
}

// Writes how many of an arrival fill a queue, and what depth takes each twice.
fn write_full(queue: &Queue<'_>, arrival: &Arrival, writing: &mut Writing) {
    writing.put(queue.path);
    writing.put(": depth ");
    writing.show(&queue.depth);
    write_filled(queue, arrival, writing);
    write_twice(queue, writing);
}

// Writes the line of a queue.
fn write_queue(queue: &Queue<'_>, writing: &mut Writing) {
    if let Some(arrival) = largest(queue) {
        writing.put("fbr: ");
        write_full(queue, arrival, writing);
        writing.put("\n");
    }
}

/// Writes what people are warned of with a queue, where they are; and whether they are.
pub fn write_warning(queue: &Queue<'_>, writing: &mut Writing) -> bool {
    match largest(queue) {
        Some(arrival) if is_shallow(queue) => {
            write_full(queue, arrival, writing);
            true
        }
        _ => false,
    }
}

// Writes the lines of the first queues that do not take each arrival once, and how many more there are.
fn write_shallow(
    alloc: Global,
    verified: &Verified,
    writing: &mut Writing,
) -> Result<(), AllocError> {
    let mut count: usize = 0;
    for device in &verified.flat().devices {
        for resource in &device.resources {
            let queue = queue_in(alloc, verified.certificate(), resource)?;
            if is_shallow(&queue) {
                if count < MOST_TOLD {
                    write_queue(&queue, writing);
                }
                count = count.saturating_add(1);
            }
        }
    }
    if count > MOST_TOLD {
        writing.put("fbr: and ");
        writing.show(&count.saturating_sub(MOST_TOLD));
        writing.put(" more\n");
    }
    Ok(())
}

/// Warns people of each queue that does not take each of its arrivals once at the same time: how many of the largest fill it, and what depth takes each twice.
/// Nothing is told where memory runs out.
pub fn tell_shallow<E: Write>(alloc: Global, verified: &Verified, errors: &mut E) {
    let mut writing = Writing::new(alloc);
    if write_shallow(alloc, verified, &mut writing).is_ok() {
        hand_out(writing, errors);
    }
}
