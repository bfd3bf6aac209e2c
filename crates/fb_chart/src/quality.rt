//! PUBLISH and SUBSCRIBE: IEC 61499-1 edition 2, annex A, this project's profile.

ghost use Rattle.std.specs.Prelude.{◌≡◌, ◌≤◌, ◌<◌, ◌&&◌, ℕ, true, List, length, [], None, Some, if◌then◌else◌};
ghost use Rattle.std.specs.List.{AllByRecursion};
ghost use Rattle.fb_model.specs.Names.{Name};
ghost use Rattle.fb_model.specs.Values.{in_type};
ghost use Rattle.fb_model.specs.Language.{setting};
ghost use Rattle.fb_model.specs.Services.{qi, qo, sent, numbered};
ghost use Rattle.fb_model.specs.Messages.{To_channel};
ghost use Rattle.fb_model.specs.Store as store;
ghost use Rattle.fb_model.specs.Serving as book;
ghost use Rattle.st_exec.specs.Cells.{values_of, forms_of};
ghost use Rattle.st_exec.specs.Kept.{plain_slot_of, room_of};
ghost use Rattle.fb_chart.specs.Ports.{slots_of, received_in};
ghost use Rattle.fb_chart.specs.Responses.{stamps_in, condition_of, effect_of};

use crate::Store;
use crate::standing::{Effect, Ports, Response, Stamps, Standing, silent};
use crate::transfer::{is_set, receive, set_bit};
use fb_wire::{Message, Purpose, Stamp, Typed};
use fb_words::ElemType;

// Whether a PUBLISH or SUBSCRIBE is open.
fn is_open(standing: Standing) -> bool
    ensures { result ≡ book.is_ready (condition_of standing) }
{
    match standing {
        Standing::Ready(_) => true,
        _ => false,
    }
}

// What is kept of stamps.
fn stamps_of(standing: Standing) -> Stamps
    ensures { stamps_in result ≡ book.stamps_of (condition_of standing) }
{
    match standing {
        Standing::Closed(stamps) => stamps,
        Standing::Ready(stamps) => stamps,
        _ => Stamps::Unstamped,
    }
}

// Whether a PUBLISH is open and has a number for its next message, if it needs one.
fn can_send(standing: Standing) -> bool
    ensures { result ≡ book.can_send (condition_of standing) }
{
    match standing {
        Standing::Ready(Stamps::Exhausted) => false,
        Standing::Ready(_) => true,
        _ => false,
    }
}

// What is kept of stamps once a message is sent: each number of the sequence is used once.
fn after_send(stamps: Stamps) -> Stamps
    ensures { stamps_in result ≡ book.after_send (stamps_in stamps) }
{
    let Stamps::Upcoming(stamp) = stamps else {
        return stamps;
    };
    match stamp.sequence.checked_add(1) {
        Some(sequence) => Stamps::Upcoming(Stamp {
            boot: stamp.boot,
            sequence,
        }),
        None => Stamps::Exhausted,
    }
}

// INIT opens a service where QI is true, else closes it; what is kept of stamps stays. QO says which, and INITO is emitted.
pub(crate) fn open(ports: &Ports, standing: Standing, own: &mut Store) -> Response
    requires quality_in { ports.now.quality_in ≡ plain_slot_of own.old qi }
    requires quality_out { ports.now.quality_out ≡ plain_slot_of own.old qo }
    requires within { ports.now.quality_out < room_of own.old }
    ensures standing { condition_of result.standing ≡ (if book.is_true (values_of own.old qi) then store.Ready (book.stamps_of (condition_of standing)) else store.Closed (book.stamps_of (condition_of standing))) }
    ensures output { result.output ≡ Some 0 }
    ensures effect { result.effect ≡ None }
    ensures values { values_of own.new ≡ setting (values_of own.old) qo (book.bit (book.is_true (values_of own.old qi))) }
    ensures forms { forms_of own.new ≡ forms_of own.old }
{
    let stamps = stamps_of(standing);
    let quality = is_set(own, ports.quality_in);
    set_bit(own, ports.quality_out, quality);
    Response {
        standing: if quality {
            Standing::Ready(stamps)
        } else {
            Standing::Closed(stamps)
        },
        output: Some(0),
        effect: None,
    }
}

// A message to a channel that has no values yet, with the next stamp if there is one.
fn blank(channel: u16, stamps: Stamps) -> Message
    ensures { result ≡ record { purpose = To_channel; number = channel; stamp = book.stamped (stamps_in stamps); values = [] } }
{
    match stamps {
        Stamps::Upcoming(stamp) => Message::stamped(channel, stamp),
        _ => Message::new(Purpose::ToChannel, channel),
    }
}

// A message to a channel: the next stamp, and the values of variables with their types.
fn message(
    channel: u16,
    types: &[ElemType],
    slots: &[usize],
    stamps: Stamps,
    own: &Store,
) -> Message
    requires few { length types.now ≤ 16 }
    requires slots { slots.now ≡ slots_of (forms_of own.now) (numbered sent 1 types.now) }
    requires fit { AllByRecursion (λ v. in_type v.type v.value ≡ true) (book.typed_values 1 types.now (values_of own.now)) }
    ensures { result ≡ record { purpose = To_channel; number = channel; stamp = book.stamped (stamps_in stamps); values = book.typed_values 1 types.now (values_of own.now) } }
{
    let mut message = blank(channel, stamps);
    for at in 0..types.len() {
        let value = own.number(slots[at]);
        let elem = types[at];
        message.add(Typed { elem, value });
    }
    message
}

// What REQ comes to: where the PUBLISH sends, a message goes out and its number is used; else all is as it was.
fn sending(
    sends: bool,
    channel: u16,
    types: &[ElemType],
    slots: &[usize],
    standing: Standing,
    own: &Store,
) -> Response
    requires few { length types.now ≤ 16 }
    requires slots { slots.now ≡ slots_of (forms_of own.now) (numbered sent 1 types.now) }
    requires fit { AllByRecursion (λ v. in_type v.type v.value ≡ true) (book.typed_values 1 types.now (values_of own.now)) }
    ensures standing { condition_of result.standing ≡ (if sends then store.Ready (book.after_send (book.stamps_of (condition_of standing))) else condition_of standing) }
    ensures output { result.output ≡ Some 1 }
    ensures effect { effect_of result.effect ≡ (if sends then Some (book.Send (record { purpose = To_channel; number = channel; stamp = book.stamped (book.stamps_of (condition_of standing)); values = book.typed_values 1 types.now (values_of own.now) })) else None) }
{
    if !sends {
        return Response {
            standing,
            output: Some(1),
            effect: None,
        };
    }
    let stamps = stamps_of(standing);
    let effect = Effect::Send(message(channel, types, slots, stamps, own));
    Response {
        standing: Standing::Ready(after_send(stamps)),
        output: Some(1),
        effect: Some(effect),
    }
}

// REQ sends values to a channel where the service can send and QI is true. QO says whether, and CNF is emitted.
pub(crate) fn publish(
    channel: u16,
    types: &[ElemType],
    ports: &Ports,
    standing: Standing,
    own: &mut Store,
) -> Response
    requires quality_in { ports.now.quality_in ≡ plain_slot_of own.old qi }
    requires quality_out { ports.now.quality_out ≡ plain_slot_of own.old qo }
    requires within { ports.now.quality_out < room_of own.old }
    requires few { length types.now ≤ 16 }
    requires slots { ports.now.sent.items ≡ slots_of (forms_of own.old) (numbered sent 1 types.now) }
    requires fit { AllByRecursion (λ v. in_type v.type v.value ≡ true) (book.typed_values 1 types.now (values_of own.old)) }
    ensures standing { condition_of result.standing ≡ (if book.can_send (condition_of standing) && book.is_true (values_of own.old qi) then store.Ready (book.after_send (book.stamps_of (condition_of standing))) else condition_of standing) }
    ensures output { result.output ≡ Some 1 }
    ensures effect { effect_of result.effect ≡ (if book.can_send (condition_of standing) && book.is_true (values_of own.old qi) then Some (book.Send (record { purpose = To_channel; number = channel; stamp = book.stamped (book.stamps_of (condition_of standing)); values = book.typed_values 1 types.now (values_of own.old) })) else None) }
    ensures values { values_of own.new ≡ setting (values_of own.old) qo (book.bit (book.can_send (condition_of standing) && book.is_true (values_of own.old qi))) }
    ensures forms { forms_of own.new ≡ forms_of own.old }
{
    let sends = can_send(standing) && is_set(own, ports.quality_in);
    let response = sending(sends, channel, types, &ports.sent, standing, own);
    set_bit(own, ports.quality_out, sends);
    response
}

// An arrival where the service is open: QO becomes true, the values are received, and IND is emitted.
pub(crate) fn subscribe(
    ports: &Ports,
    values: &[i64],
    standing: Standing,
    own: &mut Store,
) -> Response
    requires quality_out { ports.now.quality_out ≡ plain_slot_of own.old qo }
    requires within { ports.now.quality_out < room_of own.old }
    requires few { length values.now ≤ length ports.now.received.items }
    requires all_within { AllByRecursion (λ (n : ℕ). n < room_of own.old) ports.now.received.items }
    ensures response { result ≡ record { standing = standing; output = (if book.is_ready (condition_of standing) then Some 1 else None); effect = None } }
    ensures values { (names : List Name) → ports.now.received.items ≡ slots_of (forms_of own.old) names → values_of own.new ≡ (if book.is_ready (condition_of standing) then received_in names values.now (setting (values_of own.old) qo (book.bit true)) else values_of own.old) }
    ensures forms { forms_of own.new ≡ forms_of own.old }
{
    if !is_open(standing) {
        return silent(standing);
    }
    set_bit(own, ports.quality_out, true);
    receive(&ports.received, values, own);
    Response {
        standing,
        output: Some(1),
        effect: None,
    }
}
