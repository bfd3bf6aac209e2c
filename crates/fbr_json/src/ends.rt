//! Devices, and their INPUTs and OUTPUTs with numbers and types.

use fb_flat::{Body, Flat, Leaf};
use fb_types_services::Service;
use fbr_leaves::types_of;
use fbr_objects::{List, Object};
use std::alloc::Global;

/// The names of the types of a leaf's values.
pub(crate) fn type_list(alloc: Global, leaf: &Leaf) -> List {
    let mut list = List::new(alloc);
    for of_type in types_of(leaf) {
        list.text(of_type.name());
    }
    list
}

// An INPUT or OUTPUT of a number.
fn end_object(alloc: Global, number: u16, leaf: &Leaf) -> Object {
    let mut object = Object::new(alloc);
    object.number("number", u64::from(number));
    object.text("path", leaf.path.as_str());
    object.list("types", type_list(alloc, leaf));
    object
}

/// Adds the names of devices, and all their INPUTs and OUTPUTs.
pub(crate) fn put_ends(alloc: Global, flat: &Flat, object: &mut Object) {
    let mut devices = List::new(alloc);
    let mut inputs = List::new(alloc);
    let mut outputs = List::new(alloc);
    for device in &flat.devices {
        devices.text(device.name.as_str());
        for resource in &device.resources {
            for leaf in &resource.leaves {
                match &leaf.body {
                    Body::Served(Service::Input(number, _)) => {
                        inputs.object(end_object(alloc, *number, leaf));
                    }
                    Body::Served(Service::Output(number, _)) => {
                        outputs.object(end_object(alloc, *number, leaf));
                    }
                    _ => {}
                }
            }
        }
    }
    object.list("devices", devices);
    object.list("inputs", inputs);
    object.list("outputs", outputs);
}
