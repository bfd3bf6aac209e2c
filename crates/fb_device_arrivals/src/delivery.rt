//! Datagrams that come in.

ghost use Rattle.std.specs.Prelude.{◌≡◌, ◌≤◌, length, MatchOption};
ghost use Rattle.fb_model.specs.Devices.{Deliver, IsShaped, format_in as format_sent, format_of as format_taken, is_input_numbered, is_subscriber};
ghost use Rattle.fb_wire.specs.Views.{stamp_of};
ghost use Rattle.fb_chart.specs.Views.{body_kind};
ghost use Rattle.fb_device_tables.specs.Tables.{AreNumbered, first_at};
ghost use Rattle.fb_device_state.specs.Machines.{Steps};
ghost use Rattle.fb_device_state.specs.Keeping.{IsGood};
ghost use Rattle.fb_device_arrivals.specs.Answers.{admission_of};
ghost use Rattle.fb_device_arrivals.specs.Delivering.{is_meant, types_taken, numbers_taken, arrival_number, is_shut, IsReceived};

use crate::denied::Denied;
use crate::input::arriving;
use crate::stamps::{admit_stamped, stale};
use fb_chart::{Body, Condition, Point, Standing, Values};
use fb_device_state::{Program, Running, Shortage};
use fb_types_services::Service;
use fb_wire::{Message, Purpose, Stamp, Typed, decode};
use fb_words::{ElemType, Format};

// The block that a message is for.
fn meant(program: &Program, message: &Message) -> Option<u16>
    requires inputs { AreNumbered is_input_numbered program.now.tables.inputs program.now.tables.blocks.items }
    requires subscribers { AreNumbered is_subscriber program.now.tables.subscribers program.now.tables.blocks.items }
    ensures { result ≡ first_at (is_meant message.now) program.now.tables.blocks.items }
{
    match message.purpose() {
        Purpose::ToChannel => program.tables.subscriber(message.number()),
        Purpose::ToInput => program.tables.input(message.number()),
    }
}

// The numbers of values, where these are of just these types.
fn shaped(types: &[ElemType], values: &[Typed]) -> Option<Values>
    requires { length values.now ≤ 16 }
    ensures { MatchOption result (types_taken values.now ≡ types.now → ⊥) (λ taken. (types_taken values.now ≡ types.now) × (taken.items ≡ numbers_taken values.now)) }
{
    if values.len() != types.len() {
        return None;
    }
    let mut taken = Values::new();
    for at in 0..values.len() {
        if values[at].elem != types[at] {
            return None;
        }
        taken.push(values[at].value);
    }
    Some(taken)
}

// The format of a message with this stamp.
fn format_in(stamp: Option<Stamp>) -> Format
    ensures { result ≡ format_sent (stamp_of stamp) }
{
    match stamp {
        None => Format::First,
        Some(_) => Format::Second,
    }
}

// The format of the messages that a block takes.
fn format_of(body: &Body) -> Format
    ensures { result ≡ format_taken (body_kind body.now) }
{
    match body {
        Body::Served(Service::Subscribe(channel, _)) => channel.format,
        _ => Format::First,
    }
}

// The numbers of a message, where it has the format and the types that a block takes.
fn received(body: &Body, message: &Message) -> Option<Values>
    ensures { MatchOption result (IsShaped (body_kind body.now) message.now → ⊥) (λ values. IsReceived (body_kind body.now) message.now values.items) }
{
    if format_in(message.stamp()) != format_of(body) {
        return None;
    }
    shaped(arriving(body), message.values())
}

// The number of ARRIVE among the events of a block, by what a message is for.
fn arrival(purpose: Purpose) -> u16
    ensures { result ≡ arrival_number purpose }
{
    match purpose {
        Purpose::ToChannel => 2,
        Purpose::ToInput => 0,
    }
}

// Whether a block is not ready for a message.
fn is_closed(purpose: Purpose, condition: Condition) -> bool
    ensures { result ≡ is_shut purpose condition }
{
    match (purpose, condition) {
        (Purpose::ToInput, _) => false,
        (Purpose::ToChannel, Condition::Service(Standing::Ready(_))) => false,
        (Purpose::ToChannel, _) => true,
    }
}

/// Delivers bytes: a message to a channel arrives at the device's SUBSCRIBE of the channel, one to an INPUT at the INPUT of the number. Refused where a line
/// of [`Denied`] holds; nothing changes then.
pub fn deliver(program: &Program, running: &mut Running, bytes: &[u8]) -> Result<u64, Denied>
    requires { IsGood program.now running.old }
    ensures step { Steps program.now running.old (Deliver bytes.now) (admission_of result) running.new }
    ensures good { IsGood program.now running.new }
{
    let message = match decode(bytes) {
        Ok(message) => message,
        Err(fault) => return Err(Denied::Wire(fault)),
    };
    let purpose = message.purpose();
    let Some(block) = meant(program, &message) else {
        return Err(match purpose {
            Purpose::ToChannel => Denied::NoSubscriber,
            Purpose::ToInput => Denied::UnknownInput,
        });
    };
    let at = block as usize;
    let Some(values) = received(&program.tables.blocks[at].body, &message) else {
        return Err(Denied::Shape);
    };
    let condition = running.memory.conditions[at];
    if is_closed(purpose, condition) {
        return Err(Denied::Closed);
    }
    let stamp = message.stamp();
    match stale(condition, stamp) {
        Some(last) => {
            let (boot, sequence) = (last.boot, last.sequence);
            return Err(Denied::Stale { boot, sequence });
        }
        None => {}
    }
    let event = arrival(purpose);
    match admit_stamped(program, running, Point { block, event }, values, stamp) {
        Ok(cause) => Ok(cause),
        Err(Shortage::Places { needs, free }) => Err(Denied::NoCredit { needs, free }),
        Err(Shortage::Numbers) => Err(Denied::Spent),
    }
}
