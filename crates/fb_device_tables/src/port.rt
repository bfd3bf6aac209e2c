//! The slots of services' variables.

ghost use Rattle.std.specs.Prelude.{◌≡◌, map, drop, string_bytes, IfOk};
ghost use Rattle.fb_model.specs.Services.{sent, received, numbered};
ghost use Rattle.fb_types_services.specs.Views.{service_of};
ghost use Rattle.fb_chart.specs.Tables.{Each};
ghost use Rattle.fb_chart.specs.Ports.{slots_of, sends, receives, ArePorts};
ghost use Rattle.fb_device_tables.specs.Filling.{IsSmall, IsPortsMade, seat_of, seats_of};

use crate::seat::Seat;
use fb_chart::Ports;
use fb_flat::Body;
use fb_types_services::Service;
use fb_types_services::points::{DT, QI, QO};
use st_exec::Layout;
use std::alloc::{AllocError, Global};

// The slots of variables, in order.
fn slots(alloc: Global, own: &Layout, names: &[String]) -> Result<Vec<usize>, AllocError>
    ensures { IfOk result (λ v. v.items ≡ slots_of own.now (map string_bytes names.now)) }
{
    let mut slots = Vec::new(alloc);
    for name in names {
        slots.push(own.plain_slot(name.as_str()))?;
    }
    Ok(slots)
}

// All but the first.
fn behind(names: &[String]) -> &[String]
    ensures { result.now ≡ drop 1 names.now }
{
    match names {
        [_, rest @ ..] => rest,
        [] => names,
    }
}

// The slots of SD_1 and so on.
fn sent(alloc: Global, own: &Layout, service: &Service) -> Result<Vec<usize>, AllocError>
    ensures { IsSmall (service_of service.now) → IfOk result (λ v. v.items ≡ slots_of own.now (numbered sent 1 (sends (service_of service.now)))) }
{
    match service {
        Service::Output(_, _) => {
            let names = service.inputs(alloc)?;
            slots(alloc, own, &names)
        }
        Service::Publish(_, _) => {
            let names = service.inputs(alloc)?;
            slots(alloc, own, behind(&names))
        }
        _ => Ok(Vec::new(alloc)),
    }
}

// The slots of RD_1 and so on.
fn received(alloc: Global, own: &Layout, service: &Service) -> Result<Vec<usize>, AllocError>
    ensures { IsSmall (service_of service.now) → IfOk result (λ v. v.items ≡ slots_of own.now (numbered received 1 (receives (service_of service.now)))) }
{
    match service {
        Service::Input(_, _) => {
            let names = service.outputs(alloc)?;
            slots(alloc, own, &names)
        }
        Service::Subscribe(_, _) => {
            let names = service.outputs(alloc)?;
            slots(alloc, own, behind(&names))
        }
        _ => Ok(Vec::new(alloc)),
    }
}

// The slots of a service's variables.
fn served(alloc: Global, own: &Layout, service: &Service) -> Result<Ports, AllocError>
    ensures { IsSmall (service_of service.now) → IfOk result (λ p. ArePorts (service_of service.now) own.now p) }
{
    Ok(Ports {
        quality_in: own.plain_slot(QI),
        quality_out: own.plain_slot(QO),
        time: own.plain_slot(DT),
        sent: sent(alloc, own, service)?,
        received: received(alloc, own, service)?,
    })
}

// The ports of a leaf; those of a chart mean nothing.
fn port(alloc: Global, seat: &Seat) -> Result<Ports, AllocError>
    ensures { IfOk result (λ p. IsPortsMade (seat_of seat.now) p) }
{
    match &seat.leaf.body {
        Body::Basic(_) => Ok(Ports {
            quality_in: 0,
            quality_out: 0,
            time: 0,
            sent: Vec::new(alloc),
            received: Vec::new(alloc),
        }),
        Body::Served(service) => served(alloc, seat.own, service),
    }
}

/// The ports of leaves, in order.
pub(crate) fn ports(alloc: Global, seats: &[Seat]) -> Result<Vec<Ports>, AllocError>
    ensures { IfOk result (λ v. Each IsPortsMade (seats_of seats.now) v.items) }
{
    let mut ports = Vec::new(alloc);
    for seat in seats {
        ports.push(port(alloc, seat)?)?;
    }
    Ok(ports)
}
