//! Event inputs and arrivals with their rows and what they take.

ghost use Rattle.std.specs.Prelude.{◌≡◌, ◌++◌, [], ◌∷◌, map, string_bytes, IfOk, OnOk};
ghost use Rattle.fb_model.specs.Wires.{Serviced};
ghost use Rattle.fb_model.specs.CertificateText.{place_of};
ghost use Rattle.fb_cert.specs.Views.{certificate_of, steps_in, places_in};
ghost use Rattle.fb_types_blocks.specs.Views.{names_of, events_of};
ghost use Rattle.fb_types_services.specs.Views.{service_of, listed};
ghost use Rattle.fb_flat.specs.Leaves.{kind_of};
ghost use Rattle.fb_chart.specs.Tables.{Each};
ghost use Rattle.fb_device_tables.specs.Tables.{far_at};
ghost use Rattle.fb_device_tables.specs.Filling.{IsSmall, IsSmallKind, events_with, served_with, IsEventMade, IsArrivalMade, seat_of, seats_of};

use crate::carry::taken;
use crate::seat::Seat;
use crate::take::takes;
use fb_cert::{Amount, Certificate};
use fb_chart::Event;
use fb_flat::{Body, joined};
use fb_types_blocks::Events;
use fb_types_services::Service;
use indexmap::IndexSet;
use std::alloc::{AllocError, Global};

/// What the events of a device are made from: its certificate, and its leaves in their order, by their paths and with where they lie.
#[derive(Clone, Copy)]
pub(crate) struct Seating<'a> {
    pub(crate) certificate: &'a Certificate,
    pub(crate) paths: &'a IndexSet<String>,
    pub(crate) seats: &'a [Seat<'a>],
}

// What a row says, nothing where there is none.
fn amount(row: Option<Amount>) -> Amount
    ensures steps { result.steps ≡ steps_in row }
    ensures places { result.places ≡ places_in row }
{
    match row {
        Some(amount) => amount,
        None => Amount {
            steps: 0,
            places: 0,
        },
    }
}

// The steps of the row FAR at a path, where the certificate has REPEATS.
fn far(certificate: &Certificate, path: &str) -> Option<u64>
    ensures { result ≡ far_at (certificate_of certificate.now) (place_of path.now) }
{
    match certificate.repeats() {
        Some(_) => Some(certificate.far(path).unwrap_or(0)),
        None => None,
    }
}

// An event of a leaf with its rows and the data inputs of these names.
fn event(
    alloc: Global,
    seating: &Seating,
    seat: &Seat,
    name: &str,
    carried: &[String],
) -> Result<Event, AllocError>
    ensures { IfOk result (λ e. IsEventMade seating.now.certificate.now (names_of seating.now.paths.now) (seats_of seating.now.seats.now) (seat_of seat.now) (record { name = name.now; carries = map string_bytes carried.now }) e) }
{
    let takes = takes(
        alloc,
        seating.paths,
        seating.seats,
        seat.own,
        &seat.leaf.inputs,
        carried,
    )?;
    let row = joined(alloc, seat.leaf.path.as_str(), name)?;
    let weight = amount(seating.certificate.weight(row.as_str()));
    let far = far(seating.certificate, row.as_str());
    Ok(Event {
        name: String::from_str(alloc, name)?,
        steps: weight.steps,
        places: weight.places,
        far,
        takes,
    })
}

// These events of a leaf, in order.
fn charted(
    alloc: Global,
    seating: &Seating,
    seat: &Seat,
    sources: &Events,
) -> Result<Vec<Event>, AllocError>
    ensures { IfOk result (λ v. Each (IsEventMade seating.now.certificate.now (names_of seating.now.paths.now) (seats_of seating.now.seats.now) (seat_of seat.now)) (events_of sources.now) v.items) }
{
    let mut events = Vec::with_capacity(alloc, sources.len())?;
    for index in 0..sources.len() {
        let Some((name, carried)) = sources.get_index(index) else {
            return Ok(events);
        };
        events.push(event(alloc, seating, seat, name.as_str(), carried)?)?;
    }
    Ok(events)
}

// An event input or arrival of a service.
fn service_event(
    alloc: Global,
    seating: &Seating,
    seat: &Seat,
    service: &Service,
    name: &str,
) -> Result<Event, AllocError>
    ensures { IsSmall (service_of service.now) → IfOk result (λ e. IsEventMade seating.now.certificate.now (names_of seating.now.paths.now) (seats_of seating.now.seats.now) (seat_of seat.now) (served_with (service_of service.now) name.now) e) }
{
    let carried = taken(alloc, service, name)?;
    event(alloc, seating, seat, name, &carried)
}

// The event inputs of a service, in order.
fn service_inputs(
    alloc: Global,
    seating: &Seating,
    seat: &Seat,
    service: &Service,
    names: &[&str],
) -> Result<Vec<Event>, AllocError>
    ensures { IsSmall (service_of service.now) → IfOk result (λ v. Each (IsEventMade seating.now.certificate.now (names_of seating.now.paths.now) (seats_of seating.now.seats.now) (seat_of seat.now)) (map (λ n. served_with (service_of service.now) n.now) names.now) v.items) }
{
    let mut events = Vec::new(alloc);
    for name in names {
        events.push(service_event(alloc, seating, seat, service, *name)?)?;
    }
    Ok(events)
}

// The arrival of a service, if it has one.
fn service_arrival(
    alloc: Global,
    seating: &Seating,
    seat: &Seat,
    service: &Service,
) -> Result<Option<Event>, AllocError>
    ensures { IsSmall (service_of service.now) → IfOk result (λ o. IsArrivalMade seating.now.certificate.now (names_of seating.now.paths.now) (seats_of seating.now.seats.now) (seat_of seat.now) (service_of service.now) o) }
{
    match service.arrival() {
        Some(name) => {
            let event = service_event(alloc, seating, seat, service, name)?;
            Ok(Some(event))
        }
        None => Ok(None),
    }
}

// The event inputs of a service, and then its arrival.
fn served(
    alloc: Global,
    seating: &Seating,
    seat: &Seat,
    service: &Service,
) -> Result<Vec<Event>, AllocError>
    ensures { IsSmall (service_of service.now) → IfOk result (λ v. Each (IsEventMade seating.now.certificate.now (names_of seating.now.paths.now) (seats_of seating.now.seats.now) (seat_of seat.now)) (events_with (Serviced (service_of service.now))) v.items) }
{
    let names = service.event_inputs();
    let mut events = service_inputs(alloc, seating, seat, service, names)?;
    match service_arrival(alloc, seating, seat, service)? {
        Some(event) => {
            events.push(event)?;
            Ok(events)
        }
        None => Ok(events),
    }
}

/// The event inputs and arrivals of a leaf, in order.
pub(crate) fn events(
    alloc: Global,
    seating: &Seating,
    seat: &Seat,
) -> Result<Vec<Event>, AllocError>
    ensures { IsSmallKind (kind_of seat.now.leaf.now.body) → IfOk result (λ v. Each (IsEventMade seating.now.certificate.now (names_of seating.now.paths.now) (seats_of seating.now.seats.now) (seat_of seat.now)) (events_with (kind_of seat.now.leaf.now.body)) v.items) }
{
    match &seat.leaf.body {
        Body::Basic(block) => charted(alloc, seating, seat, &block.face.event_inputs),
        Body::Served(service) => served(alloc, seating, seat, service),
    }
}
