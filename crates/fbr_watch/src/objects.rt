//! Lines for programs: a JSON object each.

use crate::value::Change;
use fb_words::ElemType;
use fbr_objects::Object;
use fbr_places::Writing;
use fbr_signals::{Shown, Signal};
use std::alloc::Global;
use std::io;
use std::io::Write;

/// Writes that a run of a name begins.
pub(crate) fn write_run<W: Write>(alloc: Global, sequence: &str, out: &mut W) -> io::Result<()> {
    let mut object = Object::new(alloc);
    object.text("sequence", sequence);
    object.write(out)
}

// Adds a value and its type: whether it is so, or a number, which of a TIME is in milliseconds.
fn put_value(of_type: ElemType, value: i64, object: &mut Object) {
    object.text("type", of_type.name());
    match of_type {
        ElemType::Bool => object.flag("value", value != 0),
        _ => object.signed("value", value),
    }
}

// Adds the name of what has changed: that of its owner, and of a variable its own and the index of an element.
fn put_path(alloc: Global, name: &str, signal: &Signal<'_>, object: &mut Object) {
    let mut path = Writing::new(alloc);
    path.put(name);
    if let Shown::Value(_) = signal.shown {
        path.put(".");
        path.put(signal.variable.as_str());
        if let Some(index) = signal.index {
            path.put("[");
            path.show(&index);
            path.put("]");
        }
    }
    object.written("path", path);
}

/// Writes a change at a moment. Steps have no line.
pub(crate) fn write_change<W: Write>(
    alloc: Global,
    change: Change<'_, '_>,
    now: u64,
    out: &mut W,
) -> io::Result<()> {
    let mut object = Object::new(alloc);
    match change.signal.shown {
        Shown::Steps => return Ok(()),
        Shown::State(block) => {
            let state = usize::try_from(change.value).unwrap_or(usize::MAX);
            if let Some((name, _)) = block.states.get_index(state) {
                object.text("state", name.as_str());
            }
        }
        Shown::Value(of_type) => put_value(of_type, change.value, &mut object),
        Shown::Queue => object.signed("queue", change.value),
    }
    put_path(alloc, change.name, change.signal, &mut object);
    object.text("device", change.device);
    object.number("time", now);
    object.write(out)
}
