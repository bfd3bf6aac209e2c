//! Numbers of services and shapes of channels, of the devices of a system.

use fb_faults::TypeFault;
use fb_tree::{BlockTree, BodyTree, DeviceTree, InstanceTree, ResourceTree};
use fb_types_services::{Channel, Service, served};
use fb_words::{ElemType, Format};
use fbr_recovery_found::Found;
use fbr_recovery_types::Types;
use indexmap::{IndexMap, IndexSet};
use std::alloc::{AllocError, Global};

// The most instances of a resource, those inside composites counted.
const INSTANCES: usize = 1024;

// What is known of a system.
#[derive(Clone, Copy)]
struct Around<'a> {
    alloc: Global,
    blocks: &'a [BlockTree],
    types: &'a Types,
}

// Instances of a network that are looked at: those from a number on.
#[derive(Clone, Copy)]
struct Row<'a> {
    instances: &'a [InstanceTree],
    passed: usize,
}

// The ends of a channel: their format, the types of their values, and whether one of them sends.
#[derive(Drop)]
struct Shape {
    format: Format,
    types: Vec<ElemType>,
    is_sent: bool,
}

// The numbers that services of a device have, by their kinds.
#[derive(Drop)]
struct Numbers {
    inputs: IndexSet<u16>,
    outputs: IndexSet<u16>,
    channels: IndexSet<u16>,
}

impl<'a> Around<'a> {
    // The instances of a composite; none where an instance is of another type.
    fn inside(self, instance: &InstanceTree) -> Option<&'a [InstanceTree]> {
        let number = self.types.number(instance.of_type.text.as_str())?;
        match &self.blocks.get(number)?.body {
            BodyTree::Network(network) => Some(&network.instances),
            BodyTree::Chart(_) => None,
        }
    }

    // Passes an instance of the last of these rows, and opens the one inside it, or leaves that row.
    fn step(
        self,
        rows: &mut Vec<Row<'a>>,
        leaves: &mut Vec<&'a InstanceTree>,
    ) -> Result<(), AllocError> {
        let Some(row) = rows.pop() else {
            return Ok(());
        };
        let Some(instance) = row.instances.get(row.passed) else {
            return Ok(());
        };
        rows.push(Row {
            instances: row.instances,
            passed: row.passed.saturating_add(1),
        })?;
        leaves.push(instance)?;
        if let Some(instances) = self.inside(instance) {
            rows.push(Row {
                instances,
                passed: 0,
            })?;
        }
        Ok(())
    }

    // Walks on to the end of these rows: each instance is passed, and each network left.
    fn walk(
        self,
        rows: &mut Vec<Row<'a>>,
        leaves: &mut Vec<&'a InstanceTree>,
    ) -> Result<(), AllocError> {
        for _ in 0..INSTANCES.saturating_mul(2) {
            if rows.is_empty() {
                break;
            }
            self.step(rows, leaves)?;
        }
        Ok(())
    }

    // The instances of a network and those inside them, in text order, as many as there may be.
    fn leaves(
        self,
        instances: &'a [InstanceTree],
        leaves: &mut Vec<&'a InstanceTree>,
    ) -> Result<(), AllocError> {
        let mut rows = Vec::new(self.alloc);
        rows.push(Row {
            instances,
            passed: 0,
        })?;
        self.walk(&mut rows, leaves)
    }
}

// Tells a number that is taken already.
fn tell_number(
    service: &Service,
    at: usize,
    numbers: &mut Numbers,
    found: &mut Found<'_>,
) -> Result<(), AllocError> {
    match service {
        Service::Input(number, _) => {
            if !numbers.inputs.insert(*number)? {
                found.typing(TypeFault::BadService(at))?;
            }
        }
        Service::Output(number, _) => {
            if !numbers.outputs.insert(*number)? {
                found.typing(TypeFault::BadService(at))?;
            }
        }
        Service::Subscribe(channel, _) => {
            if !numbers.channels.insert(channel.number)? {
                found.typing(TypeFault::ChannelShape(at))?;
            }
        }
        _ => {}
    }
    Ok(())
}

// Whether an end has the shape of its channel, and no other one sends where one alone may.
fn is_alike(shape: &mut Shape, format: Format, types: &[ElemType], sends: bool) -> bool {
    let is_second = format == Format::Second;
    let is_taken = sends && is_second && shape.is_sent;
    shape.is_sent = shape.is_sent || sends;
    shape.format == format && shape.types.as_slice() == types && !is_taken
}

// Tells an end of a channel that is not as the first one.
fn tell_shape(
    channel: Channel,
    types: &Vec<ElemType>,
    sends: bool,
    at: usize,
    shapes: &mut IndexMap<u16, Shape>,
    found: &mut Found<'_>,
) -> Result<(), AllocError> {
    if let Some(shape) = shapes.get_mut(&channel.number) {
        if !is_alike(shape, channel.format, types, sends) {
            found.typing(TypeFault::ChannelShape(at))?;
        }
        return Ok(());
    }
    let shape = Shape {
        format: channel.format,
        types: types.clone()?,
        is_sent: sends,
    };
    shapes.insert(channel.number, shape)?;
    Ok(())
}

// Tells what is wrong with the number of a service beside those of others.
fn tell_service(
    service: &Service,
    at: usize,
    numbers: &mut Numbers,
    shapes: &mut IndexMap<u16, Shape>,
    found: &mut Found<'_>,
) -> Result<(), AllocError> {
    tell_number(service, at, numbers, found)?;
    match service {
        Service::Publish(channel, types) => { tell_shape(*channel, types, true, at, shapes, found) }
        Service::Subscribe(channel, types) => {
            tell_shape(*channel, types, false, at, shapes, found)
        }
        _ => Ok(()),
    }
}

// Tells what is wrong with the number of an instance, where it is a service.
fn tell_leaf(
    alloc: Global,
    leaf: &InstanceTree,
    numbers: &mut Numbers,
    shapes: &mut IndexMap<u16, Shape>,
    found: &mut Found<'_>,
) -> Result<(), AllocError> {
    match served(alloc, leaf) {
        Ok(Some(service)) => tell_service(&service, leaf.name.at, numbers, shapes, found),
        Ok(None) => Ok(()),
        Err(TypeFault::OutOfMemory) => Err(AllocError),
        Err(_) => Ok(()),
    }
}

// Tells what is wrong with the numbers of instances.
fn tell_leaves(
    alloc: Global,
    leaves: &[&InstanceTree],
    numbers: &mut Numbers,
    shapes: &mut IndexMap<u16, Shape>,
    found: &mut Found<'_>,
) -> Result<(), AllocError> {
    for leaf in leaves {
        tell_leaf(alloc, leaf, numbers, shapes, found)?;
    }
    Ok(())
}

impl Around<'_> {
    // Tells what is wrong with the numbers of a resource.
    fn tell_resource(
        self,
        resource: &ResourceTree,
        numbers: &mut Numbers,
        shapes: &mut IndexMap<u16, Shape>,
        found: &mut Found<'_>,
    ) -> Result<(), AllocError> {
        let mut leaves = Vec::new(self.alloc);
        self.leaves(&resource.network.instances, &mut leaves)?;
        tell_leaves(self.alloc, &leaves, numbers, shapes, found)
    }

    // Tells what is wrong with the numbers of resources of one device.
    fn tell_resources(
        self,
        resources: &[ResourceTree],
        numbers: &mut Numbers,
        shapes: &mut IndexMap<u16, Shape>,
        found: &mut Found<'_>,
    ) -> Result<(), AllocError> {
        for resource in resources {
            self.tell_resource(resource, numbers, shapes, found)?;
        }
        Ok(())
    }

    // Tells what is wrong with the numbers of devices.
    fn tell_devices(
        self,
        devices: &[DeviceTree],
        shapes: &mut IndexMap<u16, Shape>,
        found: &mut Found<'_>,
    ) -> Result<(), AllocError> {
        for device in devices {
            let mut numbers = Numbers {
                inputs: IndexSet::new(self.alloc),
                outputs: IndexSet::new(self.alloc),
                channels: IndexSet::new(self.alloc),
            };
            self.tell_resources(&device.resources, &mut numbers, shapes, found)?;
        }
        Ok(())
    }
}

/// Tells numbers that two services of a device have, and ends of channels that differ.
pub(crate) fn tell_numbers(
    alloc: Global,
    blocks: &[BlockTree],
    types: &Types,
    devices: &[DeviceTree],
    found: &mut Found<'_>,
) -> Result<(), AllocError> {
    let around = Around {
        alloc,
        blocks,
        types,
    };
    let mut shapes = IndexMap::new(alloc);
    around.tell_devices(devices, &mut shapes, found)
}
