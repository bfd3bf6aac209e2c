//! What happens in turns, as JSON objects for programs. They are tested, and no contract says what stands in them.

use crate::shapes::Misfit;
use crate::telling::Why;
use fb_device::{Denied, Device, Effect, Ran};
use fb_script::Told;
use fb_turn::Report;
use fb_wire::{Purpose, decode};
use fbr_answers::answer_object;
use fbr_objects::Object;
use fbr_places::Writing;
use std::alloc::Global;

// Adds for which INPUT or channel bytes are, or how many they are if they are no message.
fn put_goal(bytes: &[u8], object: &mut Object) {
    match decode(bytes) {
        Ok(message) => {
            let name = match message.purpose() {
                Purpose::ToInput => "input",
                Purpose::ToChannel => "channel",
            };
            object.number(name, u64::from(message.number()));
        }
        Err(_) => object.count("bytes", bytes.len()),
    }
}

// Adds the most steps that a cause may take, if it has not ended.
fn put_most(device: &Device, cause: u64, object: &mut Object) {
    if let Some(opening) = device.opening(cause) {
        object.number("most", opening.weight);
    }
}

/// What became of a datagram that came at a moment.
pub fn arrival_object(
    alloc: Global,
    device: &Device,
    now: u64,
    bytes: &[u8],
    answer: &Result<u64, Denied>,
) -> Object {
    let told = match answer {
        Ok(cause) => Told::Admitted(*cause),
        Err(denied) => Told::Denied(*denied),
    };
    let mut object = answer_object(alloc, &told);
    object.number("time", now);
    put_goal(bytes, &mut object);
    match answer {
        Ok(cause) => put_most(device, *cause, &mut object),
        Err(denied) => {
            let mut why = Writing::new(alloc);
            why.show(&Why(*denied, Misfit::Other));
            object.written("says", why);
        }
    }
    object
}

// A block that ran, by its names.
fn told_of<'a>(device: &'a Device, ran: &'a Ran) -> Told<'a> {
    let (path, event) = device.path(ran.block, ran.event).unwrap_or(("", ""));
    Told::Ran {
        cause: ran.cause,
        path,
        event,
        steps: ran.steps,
        effect: ran.effect.as_ref(),
        sent: None,
        ended: ran.ended,
    }
}

/// A block that ran, at a moment.
pub fn dispatch_object(alloc: Global, device: &Device, now: u64, ran: &Ran) -> Object {
    let mut object = answer_object(alloc, &told_of(device, ran));
    object.number("time", now);
    put_most(device, ran.cause, &mut object);
    if let Some(Effect::Send(message)) = &ran.effect {
        object.number("channel", u64::from(message.number()));
    }
    object
}

/// A turn that has ended, at a moment.
pub fn turn_object(alloc: Global, now: u64, report: Report) -> Object {
    let mut object = Object::new(alloc);
    object.text("answer", "turn");
    object.number("time", now);
    object.number("fired", u64::from(report.fired));
    object.number("received", u64::from(report.received));
    object.number("denied", u64::from(report.denied));
    object.number("ran", u64::from(report.ran));
    object.number("sent", u64::from(report.sent));
    object.number("lost", u64::from(report.lost));
    object
}
