//! One dispatch of a service up to its emission: IEC 61499-1 edition 2, 6.1 and annex A, this project's profile.

ghost use Rattle.std.specs.Prelude.{◌≡◌, ◌≤◌, ◌<◌, ℕ, ℤ, List, length, None, Some, IfSome};
ghost use Rattle.std.specs.List.{AllByRecursion};
ghost use Rattle.fb_words.specs.declared.elem_type.ElemType as element;
ghost use Rattle.fb_model.specs.Values.{Values as BookValues};
ghost use Rattle.fb_model.specs.System as system;
ghost use Rattle.fb_model.specs.Services.{qi, qo, sent, received, numbered, service_event_outputs};
ghost use Rattle.fb_types_services.specs.Views.{service_of, channel_of};
ghost use Rattle.st_exec.specs.Cells.{values_of, forms_of};
ghost use Rattle.st_exec.specs.Kept.{plain_slot_of, room_of};
ghost use Rattle.fb_chart.specs.Ports.{slots_of};
ghost use Rattle.fb_chart.specs.Responses.{Replies};
ghost use Rattle.fb_chart.specs.Serving.{SendsFit, CanReply};

use crate::Store;
use crate::quality::{open, publish, subscribe};
use crate::standing::{Effect, Occurrence, Ports, Response, Standing, silent};
use crate::timer::{cycle, delay};
use crate::transfer::{receive, sent_values};
use fb_types_services::{Channel, Service};
use fb_words::ElemType;

// An arrival of an INPUT: its values are received, and IND is emitted.
fn arrive(slots: &[usize], values: &[i64], standing: Standing, own: &mut Store) -> Response
    requires few { length values.now ≤ length slots.now }
    requires within { AllByRecursion (λ (n : ℕ). n < room_of own.old) slots.now }
    ensures output { result.output ≡ Some 0 }
    ensures standing { result.standing ≡ standing }
    ensures effect { result.effect ≡ None }
    ensures reply { (number clock event : ℕ) (types : List element.ElemType) (issued : BookValues) → length values.now ≤ length types → slots.now ≡ slots_of (forms_of own.old) (numbered received 1 types) → Replies (system.Input number types) clock event values.now (values_of own.old) (values_of own.new) issued standing result }
    ensures forms { forms_of own.new ≡ forms_of own.old }
{
    receive(slots, values, own);
    Response {
        standing,
        output: Some(0),
        effect: None,
    }
}

// REQ of an OUTPUT: it writes the values of its data inputs.
fn write(number: u16, slots: &[usize], standing: Standing, own: &Store) -> Response
    requires { length slots.now ≤ 16 }
    ensures output { result.output ≡ None }
    ensures reply { (clock event : ℕ) (types : List element.ElemType) (values : List ℤ) (issued : BookValues) → slots.now ≡ slots_of (forms_of own.now) (numbered sent 1 types) → Replies (system.Output number types) clock event values (values_of own.now) (values_of own.now) issued standing result }
{
    Response {
        standing,
        output: None,
        effect: Some(Effect::Write(number, sent_values(slots, own))),
    }
}

// INIT and REQ of a PUBLISH.
fn published(
    channel: &Channel,
    types: &[ElemType],
    ports: &Ports,
    event: u16,
    standing: Standing,
    own: &mut Store,
) -> Response
    requires quality_in { ports.now.quality_in ≡ plain_slot_of own.old qi }
    requires quality_out { ports.now.quality_out ≡ plain_slot_of own.old qo }
    requires within { ports.now.quality_out < room_of own.old }
    requires few { length types.now ≤ 16 }
    requires slots { ports.now.sent.items ≡ slots_of (forms_of own.old) (numbered sent 1 types.now) }
    requires sends { SendsFit (system.Publish (channel_of channel.now) types.now) (values_of own.old) }
    ensures output { IfSome result.output (λ k. k < 2) }
    ensures reply { (clock : ℕ) (values : List ℤ) (issued : BookValues) → Replies (system.Publish (channel_of channel.now) types.now) clock event values (values_of own.old) (values_of own.new) issued standing result }
    ensures forms { forms_of own.new ≡ forms_of own.old }
{
    match event {
        0 => open(ports, standing, own),
        _ => publish(channel.number, types, ports, standing, own),
    }
}

// INIT, RSP and an arrival of a SUBSCRIBE.
fn subscribed(
    ports: &Ports,
    event: u16,
    values: &[i64],
    standing: Standing,
    own: &mut Store,
) -> Response
    requires quality_in { ports.now.quality_in ≡ plain_slot_of own.old qi }
    requires quality_out { ports.now.quality_out ≡ plain_slot_of own.old qo }
    requires within { ports.now.quality_out < room_of own.old }
    requires few { length values.now ≤ length ports.now.received.items }
    requires all_within { AllByRecursion (λ (n : ℕ). n < room_of own.old) ports.now.received.items }
    ensures output { IfSome result.output (λ k. k < 2) }
    ensures reply { (clock : ℕ) (channel : system.Channel) (types : List element.ElemType) (issued : BookValues) → length values.now ≤ length types → ports.now.received.items ≡ slots_of (forms_of own.old) (numbered received 1 types) → Replies (system.Subscribe channel types) clock event values.now (values_of own.old) (values_of own.new) issued standing result }
    ensures forms { forms_of own.new ≡ forms_of own.old }
{
    match event {
        0 => open(ports, standing, own),
        1 => silent(standing),
        _ => subscribe(ports, values, standing, own),
    }
}

/// One dispatch of a service, whose inputs are sampled: its working values after it, and what it comes to.
pub(crate) fn reply(
    service: &Service,
    ports: &Ports,
    occurrence: &Occurrence,
    standing: Standing,
    own: &mut Store,
) -> Response
    requires ready { CanReply (service_of service.now) ports.now (forms_of own.old) occurrence.now.values.now }
    requires sends { SendsFit (service_of service.now) (values_of own.old) }
    ensures output { IfSome result.output (λ k. k < length (service_event_outputs (service_of service.now))) }
    ensures reply { (issued : BookValues) → Replies (service_of service.now) occurrence.now.clock occurrence.now.point.event occurrence.now.values.now (values_of own.old) (values_of own.new) issued standing result }
    ensures forms { forms_of own.new ≡ forms_of own.old }
{
    let event = occurrence.point.event;
    let clock = occurrence.clock;
    match service {
        Service::Input(_, _) => arrive(&ports.received, occurrence.values, standing, own),
        Service::Output(number, _) => write(*number, &ports.sent, standing, own),
        Service::Publish(channel, types) => {
            published(channel, types, ports, event, standing, own)
        }
        Service::Subscribe(_, _) => { subscribed(ports, event, occurrence.values, standing, own) }
        Service::Delay => delay(ports.time, event, clock, standing, own),
        Service::Cycle => cycle(ports.time, event, clock, standing, own),
        Service::Restart => Response {
            standing,
            output: Some(0),
            effect: None,
        },
    }
}
