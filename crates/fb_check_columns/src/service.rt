//! When the rows of a service pay in a column.

ghost use Rattle.std.specs.Prelude.{◌≡◌, List, map, MatchResult, if◌then◌else◌};
ghost use Rattle.std.specs.List.{AllByRecursion};
ghost use Rattle.std.specs.Str.{bytes_eq};
ghost use Rattle.fb_model.specs.Names.{Name};
ghost use Rattle.fb_model.specs.Services.{init, service_events};
ghost use Rattle.fb_model.specs.Certificates.{sending_of};
ghost use Rattle.fb_cert.specs.Views.{certificate_of};
ghost use Rattle.fb_types_services.specs.Views.{service_of};
ghost use Rattle.fb_check_columns.specs.Columns.{column_of};
ghost use Rattle.fb_check_columns.specs.Paying.{IsWeight, Names, DispatchPays, OneOwes};

use crate::column::{Column, plus};
use crate::weights::{loads_named, weighed, weight};
use fb_cert::Certificate;
use fb_faults::Shortfall;
use fb_flat::Output;
use fb_types_services::Service;
use fb_types_services::points::INIT;
use std::alloc::Global;

// A leaf that is a service: its path, the service, and where its outputs lead.
#[derive(Clone, Copy)]
struct ServedLeaf<'a> {
    path: &'a str,
    service: &'a Service,
    outputs: &'a [Output],
}

// What a datagram of a channel has to be paid, which each event input but INIT sends.
fn datagram(certificate: &Certificate, column: Column, number: u16, event: &str) -> u64
    ensures { result ≡ (if bytes_eq event.now init then 0 else (column_of column (certificate_of certificate.now)).sending number) }
{
    if event == INIT {
        return 0;
    }
    column.sending(certificate, number)
}

// What the datagram has to be paid that an event can send.
fn sent(certificate: &Certificate, column: Column, service: &Service, event: &str) -> u64
    ensures { result ≡ sending_of (column_of column (certificate_of certificate.now)) (service_of service.now) event.now }
{
    match service {
        Service::Publish(channel, _) => datagram(certificate, column, channel.number, event),
        Service::Input(_, _) | Service::Output(_, _) | Service::Subscribe(_, _) => 0,
        Service::Delay | Service::Cycle | Service::Restart => 0,
    }
}

// The weight of an event input or arrival pays for its dispatch, for all that it can emit, and for a datagram.
fn dispatch_pays(
    alloc: Global,
    certificate: &Certificate,
    column: Column,
    leaf: &ServedLeaf,
    event: &str,
) -> Result<(), Shortfall>
    ensures { Names (IsWeight leaf.now.path.now) event.now (DispatchPays column certificate.now leaf.now.path.now (service_of leaf.now.service.now) leaf.now.outputs.now event.now) result }
{
    let row = weight(alloc, certificate, column, leaf.path, event)?;
    let load = loads_named(
        alloc,
        certificate,
        column,
        leaf.outputs,
        leaf.service.emitted(event),
    )?;
    let emitted = plus(Some(column.unit()), load);
    let sent = sent(certificate, column, leaf.service, event);
    weighed(alloc, leaf.path, event, plus(emitted, Some(sent)), row)
}

// The same of each of these events.
fn dispatches_pay(
    alloc: Global,
    certificate: &Certificate,
    column: Column,
    leaf: &ServedLeaf,
    events: &[&str],
) -> Result<(), Shortfall>
    ensures { MatchResult result (λ u. AllByRecursion (DispatchPays column certificate.now leaf.now.path.now (service_of leaf.now.service.now) leaf.now.outputs.now) (map (λ e. e.now) events.now)) (IsWeight leaf.now.path.now (OneOwes column certificate.now leaf.now.path.now (service_of leaf.now.service.now) leaf.now.outputs.now (map (λ e. e.now) events.now))) }
{
    for event in events {
        dispatch_pays(alloc, certificate, column, leaf, *event)?;
    }
    Ok(())
}

/// The same of all event inputs of a service, and of its arrival.
pub(crate) fn service_pays(
    alloc: Global,
    certificate: &Certificate,
    column: Column,
    path: &str,
    service: &Service,
    outputs: &[Output],
) -> Result<(), Shortfall>
    ensures { MatchResult result (λ u. AllByRecursion (DispatchPays column certificate.now path.now (service_of service.now) outputs.now) (service_events (service_of service.now))) (IsWeight path.now (OneOwes column certificate.now path.now (service_of service.now) outputs.now (service_events (service_of service.now)))) }
{
    let leaf = ServedLeaf {
        path,
        service,
        outputs,
    };
    let inputs = service.event_inputs();
    dispatches_pay(alloc, certificate, column, &leaf, inputs)?;
    match service.arrival() {
        Some(event) => dispatch_pays(alloc, certificate, column, &leaf, event),
        None => Ok(()),
    }
}
