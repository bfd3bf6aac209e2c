//! Notes on what is accepted, and warnings of queues.

use crate::places::put_place;
use fb_verified::Verified;
use fbr_diagnosis::notes_of;
use fbr_needs::{Queue, queue_in};
use fbr_notes::marked::Marked;
use fbr_objects::{List, Object};
use fbr_places::{Named, Writing};
use fbr_tell::write_warning;
use std::alloc::{AllocError, Global};

/// Adds the notes on a text but for those that are allowed, each with its name, and at how many more places arithmetic may wrap; and tells whether there are notes.
pub fn put_notes(
    alloc: Global,
    verified: &Verified,
    app: Named<'_>,
    allowed: &str,
    object: &mut Object,
) -> Result<bool, AllocError> {
    let notes = notes_of(alloc, verified, app, allowed)?;
    let marked = Marked::of(alloc, app)?;
    let mut list = List::new(alloc);
    for ((kind, at), says) in notes.places.iter().zip(notes.said.lines()) {
        let mut note = Object::new(alloc);
        note.text("name", kind.name());
        note.text("says", says);
        put_place(alloc, marked.at_byte(*at).as_ref(), &mut note);
        list.object(note);
    }
    object.list("notes", list);
    object.count("more_notes", notes.more);
    Ok(!notes.places.is_empty())
}

// The warning of a queue that does not take each arrival once.
fn warning_object(alloc: Global, queue: &Queue<'_>) -> Option<Object> {
    let mut says = Writing::new(alloc);
    if !write_warning(queue, &mut says) {
        return None;
    }
    let mut object = Object::new(alloc);
    object.text("name", "shallow-queue");
    object.text("path", queue.path);
    object.written("says", says);
    Some(object)
}

/// Adds the warnings: each queue that does not take each arrival once.
pub fn put_warnings(
    alloc: Global,
    verified: &Verified,
    object: &mut Object,
) -> Result<(), AllocError> {
    let mut list = List::new(alloc);
    for device in &verified.flat().devices {
        for resource in &device.resources {
            let queue = queue_in(alloc, verified.certificate(), resource)?;
            if let Some(warning) = warning_object(alloc, &queue) {
                list.object(warning);
            }
        }
    }
    object.list("warnings", list);
    Ok(())
}
