//! Event inputs and arrivals of services.

ghost use Rattle.std.specs.Prelude.{◌≡◌, ◌+◌, ◌*◌, ◌++◌, [], length, map, OnOk};
ghost use Rattle.std.specs.List.{flat_map};
ghost use Rattle.fb_model.specs.Services.{service_events, service_gives, service_takes};
ghost use Rattle.fb_model.specs.Wires.{Serviced};
ghost use Rattle.fb_types_services.specs.Views.{service_of};
ghost use Rattle.fb_find_laws.specs.Nodes.{capped};
ghost use Rattle.fb_prices.specs.declared.primitive.Primitive.TheVariants as p;
ghost use Rattle.fb_prices.specs.Words.{prices_of};
ghost use Rattle.fb_model_work.specs.Spending.{in_outputs, in_service};
ghost use Rattle.fb_work_charts.specs.Charges.{event_works, service_work};
ghost use Rattle.fb_work_charts.specs.Reckoning.{all_capped, tariff_of, timed};

use crate::output::{issue_work, target_count};
use crate::scene::Scene;
use fb_prices::{Prices, Primitive};
use fb_types_services::Service;
use fb_types_services::points::{ARRIVE, IND, INIT, REQ, RSP, START, STOP};
use fb_work_statements::{added, times};
use std::alloc::AllocError;

// How many data inputs an event input is WITH.
fn takes(service: &Service, event: &str) -> usize
    ensures { result ≡ length (service_takes (service_of service.now) event.now) }
{
    match service {
        Service::Input(_, _) | Service::Restart => 0,
        Service::Output(_, types) => types.len(),
        Service::Publish(_, types) => { if event == REQ { 1 + types.len() } else { 1 } }
        Service::Subscribe(_, _) => { if event == ARRIVE { 0 } else { 1 } }
        Service::Delay | Service::Cycle => { if event == START { 1 } else { 0 } }
    }
}

// How many data outputs an event output is WITH.
fn gives(service: &Service, output: &str) -> usize
    ensures { result ≡ length (service_gives (service_of service.now) output.now) }
{
    match service {
        Service::Input(_, types) => types.len(),
        Service::Output(_, _) | Service::Delay | Service::Cycle | Service::Restart => 0,
        Service::Publish(_, _) => 1,
        Service::Subscribe(_, types) => { if output == IND { 1 + types.len() } else { 1 } }
    }
}

// A dispatch that has values.
fn with_values(prices: &Prices, primitive: Primitive, values: usize) -> u64
    ensures { result ≡ capped (prices_of prices.now primitive + prices_of prices.now p.Value * values) }
{
    let all = times(values as u128, prices.price(Primitive::Value));
    added(prices.price(primitive), all)
}

// The dispatch of a timer.
fn timer_primitive(event: &str) -> Primitive
    ensures { result ≡ timed event.now }
{
    if event == START {
        Primitive::Start
    } else if event == STOP {
        Primitive::Stop
    } else {
        Primitive::Expire
    }
}

// The dispatch of a service, with its values.
fn dispatch_work(prices: &Prices, service: &Service, event: &str) -> u64
    ensures { result ≡ capped (in_service (prices_of prices.now) (service_of service.now) event.now) }
{
    match service {
        Service::Input(_, types) => with_values(prices, Primitive::Receive, types.len()),
        Service::Output(_, types) => with_values(prices, Primitive::Write, types.len()),
        Service::Publish(_, types) => {
            if event == INIT {
                with_values(prices, Primitive::Initialize, 0)
            } else {
                with_values(prices, Primitive::Send, types.len())
            }
        }
        Service::Subscribe(_, types) => {
            if event == INIT {
                with_values(prices, Primitive::Initialize, 0)
            } else if event == RSP {
                with_values(prices, Primitive::Respond, 0)
            } else {
                with_values(prices, Primitive::Take, types.len())
            }
        }
        Service::Delay | Service::Cycle => with_values(prices, timer_primitive(event), 0),
        Service::Restart => with_values(prices, Primitive::Begin, 0),
    }
}

// What these outputs cost.
fn outputs_work(scene: &Scene, service: &Service, outputs: &[&str]) -> u64
    ensures { result ≡ capped (in_outputs (prices_of scene.now.prices.now) (Serviced (service_of service.now)) (tariff_of [] scene.now).targets (map (λ o. o.now) outputs.now)) }
{
    let mut sum = 0;
    for output in outputs {
        let targets = target_count(scene.outputs, *output);
        let issued = issue_work(scene.prices, gives(service, *output), targets);
        sum = added(sum, issued);
    }
    sum
}

// An event input or arrival.
fn service_work(scene: &Scene, service: &Service, event: &str) -> u64
    ensures { result ≡ capped (service_work (tariff_of [] scene.now) (service_of service.now) event.now) }
{
    let prices = scene.prices;
    let sampled = times(
        takes(service, event) as u128,
        prices.price(Primitive::Sample),
    );
    let taken = added(dispatch_work(prices, service, event), sampled);
    added(taken, outputs_work(scene, service, service.emitted(event)))
}

// Adds the work that each of its demands asks for.
fn add_event(
    scene: &Scene,
    service: &Service,
    event: &str,
    works: &mut Vec<u64>,
) -> Result<(), AllocError>
    ensures { OnOk result (works.new.items ≡ works.old.items ++ all_capped (event_works (tariff_of [] scene.now) (service_of service.now) event.now)) }
{
    works.push(0)?;
    works.push(service_work(scene, service, event))?;
    Ok(())
}

// The same of these events.
fn add_events(
    scene: &Scene,
    service: &Service,
    events: &[&str],
    works: &mut Vec<u64>,
) -> Result<(), AllocError>
    ensures { OnOk result (works.new.items ≡ works.old.items ++ all_capped (flat_map (event_works (tariff_of [] scene.now) (service_of service.now)) (map (λ e. e.now) events.now))) }
{
    for event in events {
        add_event(scene, service, *event, works)?;
    }
    Ok(())
}

/// Adds the work that each demand of a service asks for: of its event inputs, and of its arrival.
pub(crate) fn add_service(
    scene: &Scene,
    service: &Service,
    works: &mut Vec<u64>,
) -> Result<(), AllocError>
    ensures { OnOk result (works.new.items ≡ works.old.items ++ all_capped (flat_map (event_works (tariff_of [] scene.now) (service_of service.now)) (service_events (service_of service.now)))) }
{
    add_events(scene, service, service.event_inputs(), works)?;
    match service.arrival() {
        Some(event) => add_event(scene, service, event, works),
        None => Ok(()),
    }
}
