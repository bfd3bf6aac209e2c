//! The demands of a service.

ghost use Rattle.std.specs.Prelude.{◌≡◌, ◌++◌, [], map, IfOk, OnOk, if◌then◌else◌};
ghost use Rattle.std.specs.List.{flat_map};
ghost use Rattle.std.specs.Str.{bytes_eq};
ghost use Rattle.fb_model.specs.Services.{can_emit, init, service_events};
ghost use Rattle.fb_model.specs.Demands.{of_dispatch, sending_demand, sent};
ghost use Rattle.fb_types_services.specs.Views.{service_of};
ghost use Rattle.fb_find_laws.specs.Nodes.{by_number};
ghost use Rattle.fb_find_demands.specs.Grounds.{datagram_of, ground_in};
ghost use Rattle.fb_find_demands.specs.Rights.{numbered, numbers_of, right_of, rights_of};

use crate::crossings::least_right;
use crate::right::Right;
use crate::scene::{Scene, add_reached, added};
use fb_types_services::Service;
use fb_types_services::points::INIT;
use std::alloc::AllocError;

// What a datagram of a channel asks for, which each event input but INIT sends.
fn datagram(scene: &Scene, number: u16, event: &str) -> Result<Vec<usize>, AllocError>
    ensures { IfOk result (λ v. v.items ≡ map (numbers_of scene.now.numbering.now) (if bytes_eq event.now init then [] else datagram_of scene.now.follows number)) }
{
    let mut terms = Vec::new(scene.alloc);
    if event == INIT {
        return Ok(terms);
    }
    if !scene.follows {
        return Ok(terms);
    }
    terms.push(scene.numbering.channel(number)?)?;
    Ok(terms)
}

// What the datagram asks for that an event can send.
fn sent(scene: &Scene, service: &Service, event: &str) -> Result<Vec<usize>, AllocError>
    ensures { IfOk result (λ v. v.items ≡ map (numbers_of scene.now.numbering.now) (sent (ground_in scene.now) (service_of service.now) event.now)) }
{
    match service {
        Service::Publish(channel, _) => datagram(scene, channel.number, event),
        Service::Input(_, _) | Service::Output(_, _) | Service::Subscribe(_, _) => {
            Ok(Vec::new(scene.alloc))
        }
        Service::Delay | Service::Cycle | Service::Restart => Ok(Vec::new(scene.alloc)),
    }
}

// The weight of an event pays for its dispatch, for a datagram, and for all that it can emit.
fn sending_right(scene: &Scene, service: &Service, event: &str) -> Result<Right, AllocError>
    ensures { IfOk result (λ r. right_of r ≡ by_number (numbers_of scene.now.numbering.now) (sending_demand (ground_in scene.now) event.now (sent (ground_in scene.now) (service_of service.now) event.now) (can_emit (service_of service.now) event.now))) }
{
    let emitted = service.emitted(event);
    let mut terms = sent(scene, service, event)?;
    add_reached(
        scene.alloc,
        scene.numbering,
        scene.outputs,
        emitted,
        &mut terms,
    )?;
    Ok(Right {
        node: scene.numbering.event(scene.alloc, scene.path, event)?,
        constant: added(scene.unit, 0),
        terms,
    })
}

// The demands of an event input or arrival.
fn add_dispatch(
    scene: &Scene,
    service: &Service,
    event: &str,
    rights: &mut Vec<Right>,
) -> Result<(), AllocError>
    ensures { OnOk result (rights_of rights.new.items ≡ rights_of rights.old.items ++ numbered scene.now.numbering.now (of_dispatch (ground_in scene.now) (service_of service.now) event.now)) }
{
    rights.push(least_right(scene, event)?)?;
    rights.push(sending_right(scene, service, event)?)?;
    Ok(())
}

// The same of each of these events.
fn add_dispatches(
    scene: &Scene,
    service: &Service,
    events: &[&str],
    rights: &mut Vec<Right>,
) -> Result<(), AllocError>
    ensures { OnOk result (rights_of rights.new.items ≡ rights_of rights.old.items ++ numbered scene.now.numbering.now (flat_map (of_dispatch (ground_in scene.now) (service_of service.now)) (map (λ e. e.now) events.now))) }
{
    for event in events {
        add_dispatch(scene, service, *event, rights)?;
    }
    Ok(())
}

/// Adds the demands of a service: of its event inputs, and of its arrival.
pub(crate) fn add_service(
    scene: &Scene,
    service: &Service,
    rights: &mut Vec<Right>,
) -> Result<(), AllocError>
    ensures { OnOk result (rights_of rights.new.items ≡ rights_of rights.old.items ++ numbered scene.now.numbering.now (flat_map (of_dispatch (ground_in scene.now) (service_of service.now)) (service_events (service_of service.now)))) }
{
    add_dispatches(scene, service, service.event_inputs(), rights)?;
    match service.arrival() {
        Some(event) => add_dispatch(scene, service, event, rights),
        None => Ok(()),
    }
}
