//! Where outputs lead, by numbers.

ghost use Rattle.std.specs.Prelude.{◌≡◌, IfOk, if◌then◌else◌};
ghost use Rattle.std.specs.Str.{bytes_eq};
ghost use Rattle.fb_model.specs.Certificates.{events_of};
ghost use Rattle.fb_types_blocks.specs.Views.{names_of};
ghost use Rattle.fb_types_services.specs.Views.{service_of};
ghost use Rattle.fb_flat.specs.Leaves.{kind_of};
ghost use Rattle.fb_chart.specs.Tables.{Each};
ghost use Rattle.fb_device_tables.specs.Filling.{service_event, IsNumber, IsPointMade, IsOutputMade, seat_of, seats_of};

use crate::give::{given, gives};
use crate::names::{number, number_in};
use crate::seat::Seat;
use fb_chart::{Output, Point};
use fb_flat::{Body, Target};
use fb_types_services::Service;
use fb_types_services::points::{INIT, RSP, START, STOP};
use indexmap::IndexSet;
use std::alloc::{AllocError, Global};

// The number of a name that is one of two, by the first.
fn of_two(name: &str, first: &str) -> u16
    ensures { result ≡ (if bytes_eq name.now first.now then 0 else 1) }
{
    if name == first { 0 } else { 1 }
}

// The number of a name that is one of three, by the first two.
fn of_three(name: &str, first: &str, second: &str) -> u16
    ensures { result ≡ (if bytes_eq name.now first.now then 0 else if bytes_eq name.now second.now then 1 else 2) }
{
    if name == first {
        0
    } else if name == second {
        1
    } else {
        2
    }
}

// The number of an event input or arrival of a service.
fn served(service: &Service, name: &str) -> u16
    ensures { result ≡ service_event (service_of service.now) name.now }
{
    match service {
        Service::Input(_, _) | Service::Output(_, _) | Service::Restart => 0,
        Service::Publish(_, _) => of_two(name, INIT),
        Service::Subscribe(_, _) => of_three(name, INIT, RSP),
        Service::Delay | Service::Cycle => of_three(name, START, STOP),
    }
}

// The number of an event of a body.
fn event(body: &Body, name: &str) -> u16
    ensures { IsNumber (events_of (kind_of body.now)) name.now result }
{
    match body {
        Body::Basic(block) => number_in(&block.face.event_inputs, name),
        Body::Served(service) => served(service, name),
    }
}

// A target by numbers.
fn point(paths: &IndexSet<String>, seats: &[Seat], target: &Target) -> Point
    ensures { IsPointMade (names_of paths.now) (seats_of seats.now) target.now result }
{
    let block = number(paths, target.path.as_str());
    match seats.get(block as usize) {
        Some(seat) => Point {
            block,
            event: event(&seat.leaf.body, target.event.as_str()),
        },
        None => Point { block, event: 0 },
    }
}

// Targets, in order.
fn points(
    alloc: Global,
    paths: &IndexSet<String>,
    seats: &[Seat],
    targets: &[Target],
) -> Result<Vec<Point>, AllocError>
    ensures { IfOk result (λ v. Each (IsPointMade (names_of paths.now) (seats_of seats.now)) targets.now v.items) }
{
    let mut points = Vec::with_capacity(alloc, targets.len())?;
    for target in targets {
        points.push(point(paths, seats, target))?;
    }
    Ok(points)
}

// An output of a leaf, its targets, and the data outputs that it is WITH.
fn output(
    alloc: Global,
    paths: &IndexSet<String>,
    seats: &[Seat],
    seat: &Seat,
    source: &fb_flat::Output,
) -> Result<Output, AllocError>
    ensures { IfOk result (λ x. IsOutputMade (names_of paths.now) (seats_of seats.now) (seat_of seat.now) source.now x) }
{
    let name = source.name.clone()?;
    let targets = points(alloc, paths, seats, &source.targets)?;
    let names = given(alloc, &seat.leaf.body, source.name.as_str())?;
    let gives = gives(alloc, seat.own, seat.issued, &names)?;
    Ok(Output {
        name,
        targets,
        gives,
    })
}

/// These outputs of a leaf, in order.
pub(crate) fn outputs(
    alloc: Global,
    paths: &IndexSet<String>,
    seats: &[Seat],
    seat: &Seat,
    sources: &[fb_flat::Output],
) -> Result<Vec<Output>, AllocError>
    ensures { IfOk result (λ v. Each (IsOutputMade (names_of paths.now) (seats_of seats.now) (seat_of seat.now)) sources.now v.items) }
{
    let mut outputs = Vec::with_capacity(alloc, sources.len())?;
    for source in sources {
        outputs.push(output(alloc, paths, seats, seat, source)?)?;
    }
    Ok(outputs)
}
