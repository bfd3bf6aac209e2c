//! Answers for programs: a JSON object each, as `docs/JSON.md` says.

use fb_device::{Denied, Effect, Ended};
use fb_script::Told;
use fbr_objects::{List, Object};
use fbr_places::Writing;
use std::alloc::Global;

// Adds why an offer or a datagram is refused, and the line that says so.
fn put_denial(alloc: Global, told: &Told<'_>, denied: &Denied, object: &mut Object) {
    object.text("answer", "denied");
    object.number("number", u64::from(denied.code()));
    if let Denied::NoCredit { needs, free } = denied {
        object.number("needs", *needs);
        object.number("free", *free);
    }
    let mut line = Writing::new(alloc);
    line.show(told);
    object.written("line", line);
}

// Adds what a dispatch has done outside of the device: what an OUTPUT wrote, or the number of the datagram that a PUBLISH has sent.
fn put_effect(alloc: Global, effect: &Effect, sent: Option<u64>, object: &mut Object) {
    match effect {
        Effect::Write(number, values) => {
            let mut written = List::new(alloc);
            for value in values.as_slice() {
                written.signed(*value);
            }
            object.number("output", u64::from(*number));
            object.list("values", written);
        }
        Effect::Send(_) => object.maybe_number("datagram", sent),
    }
}

// Adds the steps of a cause that has ended, and the most that it may have taken.
fn put_end(alloc: Global, ended: Ended, object: &mut Object) {
    let mut end = Object::new(alloc);
    end.number("cause", ended.cause);
    end.number("steps", ended.total);
    end.number("most", ended.bound);
    object.object("ended", end);
}

/// An answer of a device, or of its world.
pub fn answer_object(alloc: Global, told: &Told<'_>) -> Object {
    let mut object = Object::new(alloc);
    match told {
        Told::Admitted(cause) => {
            object.text("answer", "cause");
            object.number("cause", *cause);
        }
        Told::Denied(denied) => put_denial(alloc, told, denied, &mut object),
        Told::Fired(count) => {
            object.text("answer", "fired");
            object.number("timers", u64::from(*count));
        }
        Told::Idle => object.text("answer", "idle"),
        Told::Ran {
            cause,
            path,
            event,
            steps,
            effect,
            sent,
            ended,
        } => {
            object.text("answer", "ran");
            object.number("cause", *cause);
            let path: &str = path;
            let event: &str = event;
            object.text("path", path);
            object.text("event", event);
            object.number("steps", *steps);
            if let Some(effect) = effect {
                put_effect(alloc, *effect, *sent, &mut object);
            }
            if let Some(ended) = ended {
                put_end(alloc, *ended, &mut object);
            }
        }
        Told::Root { number, steps, far } => {
            object.text("answer", "root");
            object.number("root", *number);
            object.number("steps", *steps);
            object.maybe_number("most", *far);
        }
    }
    object
}
