//! The leaves of a system.

ghost use Rattle.std.specs.Prelude.{◌≡◌, ◌+◌, ◌<◌, ◌≤◌, ◌∷◌, ◌++◌, [], OnOk, IfOk, IfErr, map, string_bytes, slice_get};
ghost use Rattle.std.specs.Option.{option_map};
ghost use Rattle.std.specs.List.{AllByRecursion, Any};
ghost use Rattle.fb_model.specs.System.{Basic, Served};
ghost use Rattle.fb_model.specs.Typing.{names_of};
ghost use Rattle.fb_types_blocks.specs.Views.{block_of, events_of};
ghost use Rattle.fb_types_services.specs.Views.{service_of};
ghost use Rattle.fb_types_networks.specs.Views.{body_of};
ghost use Rattle.fb_types.specs.Views.{resource_of, device_of, system_of};
ghost use Rattle.fb_model.specs.Wires.{sum_by, count_of, resource_count, most_followed};
ghost use Rattle.fb_types_networks.specs.declared.typed.Body.{out-Body};
ghost use Rattle.fb_flat.specs.declared.site.Around.{Nothing};
ghost use Rattle.fb_flat.specs.declared.lookup.Inside.TheVariants as within;
ghost use Rattle.fb_flat.specs.Indexes.{IsInside};
ghost use Rattle.fb_flat.specs.Sites.{path_of, text_of, left_by, left_count};
ghost use Rattle.fb_flat.specs.Walks.{spots_of, IsStop};
ghost use Rattle.fb_flat.specs.Sources.{fed_by};
ghost use Rattle.fb_flat.specs.Leaves.{Written, led, kind_of, output_of, leaf_of, leaves_at, held_by, composed, flat_resource, flat_device, written_resource, written_device, IsFull, IsLimitAt};

use crate::flat::{Body, Flat, FlatDevice, FlatResource, Leaf, Output};
use crate::inputs::{inputs, service_names, variable_names};
use crate::leave::leave;
use crate::lookup::{Indexed, Inside, index};
use crate::site::{Around, Trail, text};
use crate::walk::{Stop, Walk};
use fb_faults::TypeFault;
use fb_types::{Configuration, Device, Resource, Typed};
use fb_types_blocks::{Block, Events};
use fb_types_networks::{Instance, Network};
use fb_types_services::Service;
use std::alloc::{AllocError, Global};
use std::rc::Rc;

/// The most connections that are followed in a resource.
pub const FOLLOWED: usize = 8192;

// The leaves so far of a resource, and how many connections may still be followed.
#[derive(Drop)]
struct Table {
    leaves: Vec<Leaf>,
    left: usize,
}

/// The same service again.
pub fn service_again(alloc: Global, service: &Service) -> Result<Service, AllocError>
    ensures { IfOk result (λ s. service_of s ≡ service_of service.now) }
{
    match service {
        Service::Input(number, types) => Ok(Service::Input(
            *number,
            Vec::from_slice(alloc, types)?,
        )),
        Service::Output(number, types) => {
            Ok(Service::Output(*number, Vec::from_slice(alloc, types)?))
        }
        Service::Publish(channel, types) => {
            Ok(Service::Publish(*channel, Vec::from_slice(alloc, types)?))
        }
        Service::Subscribe(channel, types) => {
            Ok(Service::Subscribe(*channel, Vec::from_slice(alloc, types)?))
        }
        Service::Delay => Ok(Service::Delay),
        Service::Cycle => Ok(Service::Cycle),
        Service::Restart => Ok(Service::Restart),
    }
}

// The name of the event at an index.
fn name_at(events: &Events, index: usize) -> Option<&str>
    ensures { option_map (λ s. s.now) result ≡ slice_get (names_of (events_of events.now)) index }
{
    let (name, _) = events.get_index(index)?;
    Some(name.as_str())
}

// The names of events, in order.
fn names(alloc: Global, events: &Events) -> Result<Vec<&str>, AllocError>
    ensures { IfOk result (λ v. map (λ s. s.now) v.items ≡ names_of (events_of events.now)) }
{
    let mut names = Vec::new(alloc);
    for index in 0..events.len() {
        match name_at(events, index) {
            Some(name) => names.push(name)?,
            None => return Ok(names),
        }
    }
    Ok(names)
}

// An event output of a leaf, with all that it leads to.
fn output(name: &str, around: &Around, left: &mut usize, alloc: Global) -> Result<Output, Stop>
    ensures gives { IfOk result (λ o. output_of o ≡ (name.now, spots_of (left_by around.now name.now))) }
    ensures counted { OnOk result (left.new + left_count around.now name.now ≡ left.old) }
    ensures refused { IfErr result (IsStop (left.old < left_count around.now name.now)) }
{
    let mut walk = Walk {
        targets: Vec::new(alloc),
        left: *left,
    };
    leave(around, name, &mut walk, alloc)?;
    *left = walk.left;
    let name = String::from_str(alloc, name)?;
    Ok(Output {
        name,
        targets: walk.targets,
    })
}

// Puts event outputs of a leaf, with all that they lead to, into an empty list.
fn add_outputs(
    names: &[&str],
    around: &Around,
    left: &mut usize,
    outputs: &mut Vec<Output>,
    alloc: Global,
) -> Result<(), Stop>
    requires { outputs.old.items ≡ [] }
    ensures gives { OnOk result (map output_of outputs.new.items ≡ led (left_by around.now) (map (λ s. s.now) names.now)) }
    ensures counted { OnOk result (left.new + sum_by (left_count around.now) (map (λ s. s.now) names.now) ≡ left.old) }
    ensures refused { IfErr result (IsStop (left.old < sum_by (left_count around.now) (map (λ s. s.now) names.now))) }
{
    for name in names {
        outputs.push(output(*name, around, left, alloc)?)?;
    }
    Ok(())
}

// Event outputs of a leaf, with all that they lead to.
fn outputs(
    names: &[&str],
    around: &Around,
    left: &mut usize,
    alloc: Global,
) -> Result<Vec<Output>, Stop>
    ensures gives { IfOk result (λ v. map output_of v.items ≡ led (left_by around.now) (map (λ s. s.now) names.now)) }
    ensures counted { OnOk result (left.new + sum_by (left_count around.now) (map (λ s. s.now) names.now) ≡ left.old) }
    ensures refused { IfErr result (IsStop (left.old < sum_by (left_count around.now) (map (λ s. s.now) names.now))) }
{
    let mut outputs = Vec::new(alloc);
    match add_outputs(names, around, left, &mut outputs, alloc) {
        Ok(()) => Ok(outputs),
        Err(stop) => {
            drop(outputs);
            Err(stop)
        }
    }
}

// The names of a leaf's event outputs, and those of its data inputs.
#[derive(Clone, Copy)]
struct FaceNames<'a> {
    events: &'a [&'a str],
    inputs: &'a [String],
}

// Adds a leaf.
fn add(
    table: &mut Table,
    body: Body,
    face: &FaceNames,
    trail: &Trail,
    around: &Around,
    alloc: Global,
) -> Result<(), Stop>
    ensures added { OnOk result (map leaf_of table.new.leaves.items ≡ map leaf_of table.old.leaves.items ++ record { path = text_of (path_of trail.now); kind = kind_of body; outputs = led (left_by around.now) (map (λ s. s.now) face.now.events.now); inputs = fed_by (held_by around.now) (map string_bytes face.now.inputs.now) } ∷ []) }
    ensures counted { OnOk result (table.new.left + sum_by (left_count around.now) (map (λ s. s.now) face.now.events.now) ≡ table.old.left) }
    ensures refused { IfErr result (IsStop (table.old.left < sum_by (left_count around.now) (map (λ s. s.now) face.now.events.now))) }
{
    let outputs = outputs(face.events, around, &mut table.left, alloc)?;
    let inputs = inputs(face.inputs, around, alloc)?;
    let path = text(trail, alloc)?;
    table.leaves.push(Leaf {
        path,
        body,
        outputs,
        inputs,
    })?;
    Ok(())
}

// Adds the leaf of a basic instance.
fn add_block(
    table: &mut Table,
    block: &Rc<Block>,
    trail: &Trail,
    around: &Around,
    alloc: Global,
) -> Result<(), Stop>
    ensures added { OnOk result (map leaf_of table.new.leaves.items ≡ map leaf_of table.old.leaves.items ++ leaves_at (Basic (block_of block.now.value)) trail.now around.now) }
    ensures counted { OnOk result (table.new.left + count_of (Basic (block_of block.now.value)) (left_count around.now) ≡ table.old.left) }
    ensures refused { IfErr result (IsStop (table.old.left < count_of (Basic (block_of block.now.value)) (left_count around.now))) }
{
    let names = names(alloc, &block.face.event_outputs)?;
    let taken = variable_names(alloc, &block.face.inputs)?;
    add(
        table,
        Body::Basic(block.clone()?),
        &FaceNames {
            events: &names,
            inputs: &taken,
        },
        trail,
        around,
        alloc,
    )
}

// Adds the leaf of a service instance.
fn add_service(
    table: &mut Table,
    service: &Service,
    trail: &Trail,
    around: &Around,
    alloc: Global,
) -> Result<(), Stop>
    ensures added { OnOk result (map leaf_of table.new.leaves.items ≡ map leaf_of table.old.leaves.items ++ leaves_at (Served (service_of service.now)) trail.now around.now) }
    ensures counted { OnOk result (table.new.left + count_of (Served (service_of service.now)) (left_count around.now) ≡ table.old.left) }
    ensures refused { IfErr result (IsStop (table.old.left < count_of (Served (service_of service.now)) (left_count around.now))) }
{
    let taken = service_names(alloc, service)?;
    add(
        table,
        Body::Served(service_again(alloc, service)?),
        &FaceNames {
            events: service.event_outputs(),
            inputs: &taken,
        },
        trail,
        around,
        alloc,
    )
}

// Adds the leaf of an instance that is no composite.
fn add_leaf(
    instance: &Instance,
    trail: &Trail,
    around: &Around,
    table: &mut Table,
    alloc: Global,
) -> Result<(), Stop>
    requires { IsInside (out-Body instance.now.body) within.Leaf }
    ensures added { OnOk result (map leaf_of table.new.leaves.items ≡ map leaf_of table.old.leaves.items ++ leaves_at (body_of instance.now.body) trail.now around.now) }
    ensures counted { OnOk result (table.new.left + count_of (body_of instance.now.body) (left_count around.now) ≡ table.old.left) }
    ensures refused { IfErr result (IsStop (table.old.left < count_of (body_of instance.now.body) (left_count around.now))) }
{
    match &instance.body {
        fb_types_networks::Body::Basic(block) => add_block(table, block, trail, around, alloc),
        fb_types_networks::Body::Served(service) => add_service(
            table, service, trail, around, alloc,
        ),
        fb_types_networks::Body::Composite(_, _) => unreachable!(),
    }
}

// Adds the leaves of an instance, on its trail.
#[cycle(collecting)]
fn collect<'a, 'n>(
    instance: &Instance,
    inside: &Inside<'n>,
    trail: &Trail,
    around: &Around<'a, 'n>,
    table: &mut Table,
    alloc: Global,
) -> Result<(), Stop>
    requires { IsInside (out-Body instance.now.body) inside.now }
    ensures added { OnOk result (map leaf_of table.new.leaves.items ≡ map leaf_of table.old.leaves.items ++ leaves_at (body_of instance.now.body) trail.now around.now) }
    ensures counted { OnOk result (table.new.left + count_of (body_of instance.now.body) (left_count around.now) ≡ table.old.left) }
    ensures refused { IfErr result (IsStop (table.old.left < count_of (body_of instance.now.body) (left_count around.now))) }
{
    match inside {
        Inside::Leaf => add_leaf(instance, trail, around, table, alloc),
        Inside::Composite(_, indexed) => collect_all(indexed, trail, around, table, alloc),
    }
}

// Adds the leaves of a network, on its trail.
#[cycle(collecting)]
fn collect_all<'a, 'n>(
    indexed: &Indexed<'n>,
    trail: &Trail,
    around: &Around<'a, 'n>,
    table: &mut Table,
    alloc: Global,
) -> Result<(), Stop>
    ensures added { OnOk result (map leaf_of table.new.leaves.items ≡ map leaf_of table.old.leaves.items ++ leaves_at (composed indexed.now) trail.now around.now) }
    ensures counted { OnOk result (table.new.left + count_of (composed indexed.now) (left_count around.now) ≡ table.old.left) }
    ensures refused { IfErr result (IsStop (table.old.left < count_of (composed indexed.now) (left_count around.now))) }
{
    for (position, instance) in indexed.instances().iter().enumerate() {
        let inside = Trail::Inside(instance.name.as_str(), &*trail);
        let level = Around::Level(&*indexed, &*instance, &*trail, &*around);
        collect(
            instance,
            indexed.inside(position),
            &inside,
            &level,
            table,
            alloc,
        )?;
    }
    Ok(())
}

// Adds the leaves of a network in a resource.
fn add_network(
    network: &Network,
    trail: &Trail,
    table: &mut Table,
    alloc: Global,
) -> Result<(), Stop>
    ensures added { OnOk result (map leaf_of table.new.leaves.items ≡ map leaf_of table.old.leaves.items ++ leaves_at (composed network.now) trail.now Nothing) }
    ensures counted { OnOk result (table.new.left + count_of (composed network.now) (λ o. 0) ≡ table.old.left) }
    ensures refused { IfErr result (IsStop (table.old.left < count_of (composed network.now) (λ o. 0))) }
{
    let indexed = index(alloc, network)?;
    let added = collect_all(&indexed, trail, &Around::Nothing, table, alloc);
    drop(indexed);
    added
}

// The leaves of a network in a resource.
fn leaves(network: &Network, trail: &Trail, alloc: Global) -> Result<Vec<Leaf>, Stop>
    ensures gives { IfOk result (λ v. map leaf_of v.items ≡ leaves_at (composed network.now) trail.now Nothing) }
    ensures few { OnOk result (count_of (composed network.now) (λ o. 0) ≤ most_followed) }
    ensures refused { IfErr result (IsStop (most_followed < count_of (composed network.now) (λ o. 0))) }
{
    let mut table = Table {
        leaves: Vec::new(alloc),
        left: FOLLOWED,
    };
    match add_network(network, trail, &mut table, alloc) {
        Ok(()) => Ok(table.leaves),
        Err(stop) => {
            drop(table);
            Err(stop)
        }
    }
}

/// The leaves of a resource and their wires, in text order, on the path of its device.
///
/// More than [`FOLLOWED`] followings of connections are refused with `Limit` at its name.
pub fn flatten_resource(
    alloc: Global,
    device: &str,
    source: &Resource,
) -> Result<FlatResource, TypeFault>
    ensures written { IfOk result (λ f. flat_resource f ≡ written_resource device.now (resource_of source.now)) }
    ensures few { OnOk result (resource_count (resource_of source.now) ≤ most_followed) }
    ensures refused { IfErr result (IsLimitAt (IsFull source.now)) }
{
    let trail = Trail::Resource(device, source.name.as_str());
    match leaves(&source.network, &trail, alloc) {
        Ok(leaves) => Ok(FlatResource {
            path: text(&trail, alloc)?,
            leaves,
        }),
        Err(Stop::OutOfMemory) => Err(TypeFault::OutOfMemory),
        Err(Stop::Full) => Err(TypeFault::Limit(source.at)),
    }
}

// Puts the resources of a device, in order, into an empty list.
fn add_resources(
    alloc: Global,
    source: &Device,
    resources: &mut Vec<FlatResource>,
) -> Result<(), TypeFault>
    requires { resources.old.items ≡ [] }
    ensures written { OnOk result (map flat_resource resources.new.items ≡ map (written_resource (string_bytes source.now.name)) (map resource_of source.now.resources.items)) }
    ensures few { OnOk result (AllByRecursion (λ r. resource_count r ≤ most_followed) (map resource_of source.now.resources.items)) }
    ensures refused { IfErr result (IsLimitAt (λ at. Any (λ r. IsFull r at) source.now.resources.items)) }
{
    for resource_source in &source.resources {
        let resource = flatten_resource(alloc, source.name.as_str(), resource_source)?;
        resources.push(resource)?;
    }
    Ok(())
}

// A device: its resources in order.
fn device(alloc: Global, source: &Device) -> Result<FlatDevice, TypeFault>
    ensures written { IfOk result (λ f. flat_device f ≡ written_device (device_of source.now)) }
    ensures few { OnOk result (AllByRecursion (λ r. resource_count r ≤ most_followed) (device_of source.now).resources) }
    ensures refused { IfErr result (IsLimitAt (λ at. Any (λ r. IsFull r at) source.now.resources.items)) }
{
    let name = source.name.clone()?;
    let mut resources = Vec::new(alloc);
    match add_resources(alloc, source, &mut resources) {
        Ok(()) => Ok(FlatDevice { name, resources }),
        Err(fault) => {
            drop(resources);
            Err(fault)
        }
    }
}

// The devices of a system, in order.
fn flat_devices(alloc: Global, typed: &Configuration) -> Result<Flat, TypeFault>
    ensures leaves { IfOk result (λ f. map flat_device f.devices.items ≡ map written_device (system_of typed.now).devices) }
    ensures few { OnOk result (AllByRecursion (λ d. AllByRecursion (λ r. resource_count r ≤ most_followed) d.resources) (system_of typed.now).devices) }
    ensures refused { IfErr result (IsLimitAt (λ at. Any (λ d. Any (λ r. IsFull r at) d.resources.items) typed.now.devices.items)) }
{
    let mut devices = Vec::new(alloc);
    for source in &typed.devices {
        devices.push(device(alloc, source)?)?;
    }
    Ok(Flat { devices })
}

/// The leaves of a system and their wires, in text order.
///
/// More than [`FOLLOWED`] followings of connections in a resource are refused with `Limit` at its name.
pub fn flatten(alloc: Global, typed: &Typed) -> Result<Flat, TypeFault>
    ensures leaves { IfOk result (λ f. map flat_device f.devices.items ≡ map written_device (system_of typed.now).devices) }
    ensures few { OnOk result (AllByRecursion (λ d. AllByRecursion (λ r. resource_count r ≤ most_followed) d.resources) (system_of typed.now).devices) }
    ensures refused { IfErr result (IsLimitAt (λ at. Any (λ d. Any (λ r. IsFull r at) d.resources.items) typed.now.devices.items)) }
{
    flat_devices(alloc, typed.configuration())
}
