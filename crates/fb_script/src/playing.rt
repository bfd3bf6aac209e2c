//! What one line asks of a world, and how an answer is told.

ghost use Rattle.std.specs.Prelude.{◌≡◌, Some, MatchOption, slice_get};
ghost use Rattle.fb_model.specs.System.{Device as book_device};
ghost use Rattle.fb_model.specs.Wires.{leaves};
ghost use Rattle.fb_device_state.specs.Machines.{device_in};
ghost use Rattle.fb_device.specs.Answers.{answer_of, HasPlace, IsNumberOf, IsNoNumber};
ghost use Rattle.fb_device_dispatch.specs.Answers.{dispatched_of, HasPoint};
ghost use Rattle.fb_device_dispatch.specs.declared.answer.Dispatched.TheVariants as dispatched;
ghost use Rattle.fb_world_course.specs.Scenes.{system_of};
ghost use Rattle.fb_script.specs.Lines as book;
ghost use Rattle.fb_script.specs.Views.{command_of};
ghost use Rattle.fb_script.specs.Steps.{IsAsked};
ghost use Rattle.fb_script.specs.Texts.{told_text, answer_text};

use crate::line::Line;
use crate::told::Told;
use fb_device::{Answer, Device, Dispatched, Ran};
use fb_world::{RootSteps, World};
use fb_world_course::WorldEvent;

/// What a line names and is not there.
#[derive(Clone, Copy)]
pub enum Missing<'a> {
    /// The system has no device of this name.
    Device(&'a str),
    /// The device of the first name has no resource of the second.
    Resource(&'a str, &'a str),
    /// No datagram of this number was sent so far.
    Datagram(u64),
    /// No root of this number was opened so far.
    Root(u64),
}

/// What a line asks of a world.
#[derive(Drop)]
pub enum Asked<'a> {
    /// An event, at the device of a number.
    Event(u16, WorldEvent),
    /// A dispatch, at the device of a number, of the resource of a number.
    Dispatch(u16, u16),
    /// The steps of the root of a number.
    Root(u64, RootSteps),
    /// Its device, its resource or its root is unknown.
    Unknown(Missing<'a>),
}

fn ask_offer<'a>(world: &World, name: &'a str, number: u16, values: Vec<i64>) -> Asked<'a>
    ensures { IsAsked world.now (book.Offer name.now number values.items) result }
{
    match world.device(name) {
        Some(device) => Asked::Event(device, WorldEvent::Offer(device, number, values)),
        None => Asked::Unknown(Missing::Device(name)),
    }
}

fn ask_deliver<'a>(world: &World, number: u64, name: &'a str) -> Asked<'a>
    ensures { IsAsked world.now (book.Deliver number name.now) result }
{
    match world.device(name) {
        Some(device) => Asked::Event(device, WorldEvent::Deliver(number, device)),
        None => Asked::Unknown(Missing::Device(name)),
    }
}

fn ask_tick<'a>(world: &World, name: &'a str, now: u64) -> Asked<'a>
    ensures { IsAsked world.now (book.Tick name.now now) result }
{
    match world.device(name) {
        Some(device) => Asked::Event(device, WorldEvent::Tick(device, now)),
        None => Asked::Unknown(Missing::Device(name)),
    }
}

// The number of a resource of the device of a number.
fn resource_of(world: &World, device: u16, name: &str) -> Option<u16>
    ensures { (d : book_device) → slice_get (system_of world.now).devices device ≡ Some d → MatchOption result (IsNoNumber d.resources name.now) (λ n. IsNumberOf d.resources name.now n) }
{
    match world.get(device) {
        Some(device) => device.resource(name),
        None => None,
    }
}

fn ask_dispatch<'a>(world: &World, name: &'a str, resource: &'a str) -> Asked<'a>
    ensures { IsAsked world.now (book.Dispatch name.now resource.now) result }
{
    let Some(device) = world.device(name) else {
        return Asked::Unknown(Missing::Device(name));
    };
    match resource_of(world, device, resource) {
        Some(resource) => Asked::Dispatch(device, resource),
        None => Asked::Unknown(Missing::Resource(name, resource)),
    }
}

fn ask_root<'a>(world: &World, number: u64) -> Asked<'a>
    ensures { IsAsked world.now (book.Root number) result }
{
    match world.root(number) {
        Some(told) => Asked::Root(number, told),
        None => Asked::Unknown(Missing::Root(number)),
    }
}

/// What a line asks of a world.
pub fn ask<'a>(world: &World, line: Line<'a>) -> Asked<'a>
    ensures { IsAsked world.now (command_of line.entry) result }
{
    match line {
        Line::Offer {
            device: name,
            number,
            values,
        } => ask_offer(world, name, number, values),
        Line::Deliver {
            number,
            device: name,
        } => ask_deliver(world, number, name),
        Line::Tick { device: name, now } => ask_tick(world, name, now),
        Line::Dispatch {
            device: name,
            resource,
        } => ask_dispatch(world, name, resource),
        Line::Root { number } => ask_root(world, number),
    }
}

// A block that ran, by its names.
fn tell_run<'a>(device: &'a Device, ran: &'a Ran, sent: Option<u64>) -> Told<'a>
    ensures { HasPoint (leaves (device_in device.now)) (dispatched.Ran ran.now) → told_text result ≡ answer_text sent (dispatched_of (leaves (device_in device.now)) (dispatched.Ran ran.now)) }
{
    match device.path(ran.block, ran.event) {
        Some((path, event)) => Told::Ran {
            cause: ran.cause,
            path,
            event,
            steps: ran.steps,
            effect: ran.effect.as_ref(),
            sent,
            ended: ran.ended,
        },
        None => Told::Ran {
            cause: ran.cause,
            path: "",
            event: "",
            steps: ran.steps,
            effect: ran.effect.as_ref(),
            sent,
            ended: ran.ended,
        },
    }
}

/// A dispatch of a device, with the names of its block and event, and with the number of the datagram that was sent.
pub fn tell_dispatched<'a>(
    device: &'a Device,
    dispatched: &'a Dispatched,
    sent: Option<u64>,
) -> Told<'a>
    ensures { HasPoint (leaves (device_in device.now)) dispatched.now → told_text result ≡ answer_text sent (dispatched_of (leaves (device_in device.now)) dispatched.now) }
{
    match dispatched {
        Dispatched::Idle => Told::Idle,
        Dispatched::Ran(ran) => tell_run(device, ran, sent),
    }
}

/// An answer of a device, with the names of its block and event, and with the number of the datagram that was sent.
pub fn tell<'a>(device: &'a Device, answer: &'a Answer, sent: Option<u64>) -> Told<'a>
    ensures { HasPlace (leaves (device_in device.now)) answer.now → told_text result ≡ answer_text sent (answer_of (leaves (device_in device.now)) answer.now) }
{
    match answer {
        Answer::Admitted(Ok(cause)) => Told::Admitted(*cause),
        Answer::Admitted(Err(why)) => Told::Denied(*why),
        Answer::Fired(count) => Told::Fired(*count),
        Answer::Served(dispatched) => tell_dispatched(device, dispatched, sent),
    }
}
