//! Turns: what a device does with its link, again and again.

ghost use Rattle.std.specs.Prelude.{◌≡◌, ◌+◌, ◌<◌, ◌≤◌, List, length, IfErr, if◌then◌else◌};
ghost use Rattle.std.specs.List.{sum_by};
ghost use Rattle.fb_model.specs.Messages.{spelling};
ghost use Rattle.fb_model.specs.Wires.{Leaf};
ghost use Rattle.fb_model.specs.Devices.{Happens, Dispatch};
ghost use Rattle.fb_model.specs.Headline.{KeepsBounds, StaysWithinAll};
ghost use Rattle.fb_words.specs.Links.{Sent};
ghost use Rattle.fb_chart.specs.Responses as responses;
ghost use Rattle.fb_device_dispatch.specs.Answers.{dispatched_of};
ghost use Rattle.fb_device_state.specs.Machines.{device_in, cert_in, machine_of};
ghost use Rattle.fb_model.specs.Promises.{IsBounded};
ghost use Rattle.fb_model.specs.Turning as turns;
ghost use Rattle.fb_turn.specs.Turns.{IsTold, Receives, ServesOne, Serves, GoesOut};
ghost use Rattle.fb_model.specs.Turning.{Turn, Receipt, Close, Service, IsTurn};

use crate::watching::Watch;
use fb_device::{Device, Dispatched, Effect};
use fb_link::{Link, Received};
use fb_wire::{Message, encode};

/// The most datagrams that a device takes in a turn.
const MOST_RECEIVES: usize = 16;

/// The room for a datagram, in bytes: no message is longer.
const ROOM: usize = 160;

/// A receive failed. The device stands after the tick and the datagrams that were delivered before. Code 59.
#[derive(Clone, Copy)]
pub struct LinkDown;

impl LinkDown {
    /// The number of the refusal.
    pub fn code(&self) -> u8
        ensures { result ≡ 59 }
    {
        59
    }
}

/// What a turn did.
#[derive(Clone, Copy)]
pub struct Report {
    /// The timers that were fired.
    pub fired: u32,
    /// The datagrams that came in.
    pub received: u32,
    /// Those of them that were denied.
    pub denied: u32,
    /// The resources of which a block ran.
    pub ran: u32,
    /// The datagrams that the link took.
    pub sent: u32,
    /// Those that it did not take.
    pub lost: u32,
}

// What the receives of a turn came to.
#[derive(Clone, Copy)]
struct Receipts {
    received: u32,
    denied: u32,
    down: bool,
}

// What the dispatches of a turn came to.
#[derive(Clone, Copy)]
struct Services {
    ran: u32,
    sent: u32,
    lost: u32,
}

// Receives datagrams and delivers each, up to the sixteenth, or until none is there or the link fails.
fn receive_all<L: Link, W: Watch>(device: &mut Device, link: &mut L, watch: &mut W) -> Receipts
    ensures received { (all : List Receipt) × (close : Close) × Receives (cert_in device.old) (device_in device.old) L.steps L.count W.sees (machine_of device.old) link.old watch.old all close (machine_of device.new) link.new watch.new
        × (result.received ≡ length all) × (result.denied ≡ sum_by turns.denials all) × (result.down ≡ turns.is_cut close) }
    ensures same { (device.new.verified ≡ device.old.verified) × (device.new.number ≡ device.old.number) }
{
    let mut received = 0;
    let mut denied = 0;
    let mut buffer = [0u8; ROOM];
    for _ in 0..MOST_RECEIVES {
        match link.receive(&mut buffer) {
            Received::Nothing => {
                return Receipts {
                    received,
                    denied,
                    down: false,
                };
            }
            Received::Failed => {
                return Receipts {
                    received,
                    denied,
                    down: true,
                };
            }
            Received::Got(count) => {
                received += 1;
                let answer = device.deliver(&buffer[..count]);
                watch.came(device, &buffer[..count], &answer);
                if answer.is_err() {
                    denied += 1;
                }
            }
        }
    }
    Receipts {
        received,
        denied,
        down: false,
    }
}

// Gives a message to the link.
fn send<L: Link>(link: &mut L, message: &Message) -> bool
    ensures told { L.steps link.old (Sent (spelling message.now) result) link.new }
    ensures counted { L.count link.new ≡ L.count link.old + (if result then 0 else 1) }
{
    let bytes = encode(message);
    link.send(bytes.as_slice())
}

// Gives what a block sends to the link, once, and answers whether it took it; true where nothing is sent.
fn put_out<L: Link>(effect: &Option<Effect>, link: &mut L) -> bool
    ensures { GoesOut L.steps L.count (responses.effect_of effect.now) link.old result link.new }
{
    match effect {
        Some(Effect::Send(message)) => send(link, message),
        Some(Effect::Write(_, _)) => true,
        None => true,
    }
}

// What became of what a dispatch did outside of the device.
#[derive(Clone, Copy)]
struct Outcome {
    taken: bool,
    services: Services,
}

// What a block that ran comes to, where the link took what it sent, or not.
fn count_out(effect: &Option<Effect>, taken: bool) -> Outcome
    ensures { result ≡ record { taken = taken; services = record { ran = 1; sent = turns.taken_in (responses.effect_of effect.now) taken; lost = turns.lost_in (responses.effect_of effect.now) taken } } }
{
    let (sent, lost) = match effect {
        Some(Effect::Send(_)) => { if taken { (1, 0) } else { (0, 1) } }
        Some(Effect::Write(_, _)) | None => (0, 0),
    };
    let services = Services { ran: 1, sent, lost };
    Outcome { taken, services }
}

// Gives out what a dispatch did outside of the device.
fn give_out<L: Link>(answer: &Dispatched, link: &mut L) -> Outcome
    ensures out { (all : List Leaf) → GoesOut L.steps L.count (turns.effect_of (dispatched_of all answer.now)) link.old result.taken link.new }
    ensures counts { (all : List Leaf) → result.services ≡ record {
      ran = turns.runs_of (dispatched_of all answer.now);
      sent = turns.taken_in (turns.effect_of (dispatched_of all answer.now)) result.taken;
      lost = turns.lost_in (turns.effect_of (dispatched_of all answer.now)) result.taken;
    } }
    ensures few { (result.services.ran ≤ 1) × (result.services.sent ≤ 1) × (result.services.lost ≤ 1) }
{
    match answer {
        Dispatched::Idle => Outcome {
            taken: true,
            services: Services {
                ran: 0,
                sent: 0,
                lost: 0,
            },
        },
        Dispatched::Ran(ran) => {
            let taken = put_out(&ran.effect, link);
            count_out(&ran.effect, taken)
        }
    }
}

// Dispatches a resource once, gives out what its block did, and lets it be seen.
fn serve_one<L: Link, W: Watch>(
    device: &mut Device,
    link: &mut L,
    watch: &mut W,
    resource: u16,
) -> Services
    ensures served { (one : Service) × ServesOne (cert_in device.old) (device_in device.old) L.steps L.count W.sees resource (machine_of device.old) link.old watch.old one (machine_of device.new) link.new watch.new
        × (result ≡ record { ran = turns.runs one; sent = turns.takings one; lost = turns.losses one }) }
    ensures few { (result.ran ≤ 1) × (result.sent ≤ 1) × (result.lost ≤ 1) }
    ensures same { (device.new.verified ≡ device.old.verified) × (device.new.number ≡ device.old.number) }
{
    let answer = device.dispatch(resource);
    let outcome = give_out(&answer, link);
    watch.served(device, &answer, outcome.taken);
    outcome.services
}

// Dispatches each of the first resources once, in order.
fn serve_all<L: Link, W: Watch>(
    device: &mut Device,
    link: &mut L,
    watch: &mut W,
    resources: u16,
) -> Services
    ensures served { (all : List Service) × Serves (cert_in device.old) (device_in device.old) L.steps L.count W.sees (machine_of device.old) link.old watch.old all (machine_of device.new) link.new watch.new
        × (length all ≡ resources) × (result ≡ record { ran = sum_by turns.runs all; sent = sum_by turns.takings all; lost = sum_by turns.losses all }) }
    ensures same { (device.new.verified ≡ device.old.verified) × (device.new.number ≡ device.old.number) }
{
    let mut ran = 0;
    let mut sent = 0;
    let mut lost = 0;
    for resource in 0..resources {
        let one = serve_one(device, link, watch, resource);
        ran += one.ran;
        sent += one.sent;
        lost += one.lost;
    }
    Services { ran, sent, lost }
}

/// Takes a turn of a device over a link: sets the clock and tries its timers, takes up to 16 datagrams from the link and delivers each, and dispatches
/// each resource once, in order. What is sent is given to the link once, and each answer is seen once. A datagram that is longer than 160 bytes is cut
/// there, and is denied as it would be whole.
///
/// `LinkDown` where a receive failed: the device then stands after the tick and the datagrams delivered so far, and nothing was dispatched.
pub fn turn<L: Link, W: Watch>(
    device: &mut Device,
    link: &mut L,
    watch: &mut W,
    now: u64,
) -> Result<Report, LinkDown>
    ensures turn { (turn : Turn) × IsTurn (cert_in device.old) (device_in device.old) L.steps L.count W.sees now (machine_of device.old) link.old watch.old turn (machine_of device.new) link.new watch.new
        × IsTold turn (length (device_in device.old).resources) result
        × KeepsBounds (cert_in device.old) (device_in device.old) (machine_of device.old) (turns.answers_of turn) (machine_of device.new)
        × StaysWithinAll (cert_in device.old) (device_in device.old) (machine_of device.old) (turns.events_of now turn) }
    ensures down { IfErr result (λ down. L.count link.old < L.count link.new) }
    ensures bounded { IsBounded (cert_in device.old) (device_in device.old) (machine_of device.new) }
    ensures same { (device.new.verified ≡ device.old.verified) × (device.new.number ≡ device.old.number) }
{
    device.keeps_bounds();
    let resources = device.resources();
    let fired = device.tick(now);
    let receipts = receive_all(device, link, watch);
    if receipts.down {
        return Err(LinkDown);
    }
    let services = serve_all(device, link, watch, resources);
    Ok(Report {
        fired,
        received: receipts.received,
        denied: receipts.denied,
        ran: services.ran,
        sent: services.sent,
        lost: services.lost,
    })
}
