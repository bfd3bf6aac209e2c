//! The names of a system, and the types of its INPUTs, for what people are told.

use fb_flat::{Body, Flat, FlatDevice};
use fb_types_services::Service;
use fb_words::ElemType;
use fbr_places::Writing;
use std::alloc::{AllocError, Global};

/// An INPUT: its number, and the types of its values.
#[derive(Drop)]
pub(crate) struct Port {
    number: u16,
    types: Vec<ElemType>,
}

/// A device: its name, the names of its resources, and its INPUTs.
#[derive(Drop)]
pub(crate) struct Station {
    pub name: String,
    pub resources: Vec<String>,
    ports: Vec<Port>,
}

impl Station {
    // That of a device.
    fn of(alloc: Global, device: &FlatDevice) -> Result<Station, AllocError> {
        let mut resources = Vec::new(alloc);
        let mut ports = Vec::new(alloc);
        for resource in &device.resources {
            let path = resource.path.as_str();
            let name = match path.rsplit_once('.') {
                Some((_, name)) => name,
                None => path,
            };
            resources.push(String::from_str(alloc, name)?)?;
            for leaf in &resource.leaves {
                if let Body::Served(Service::Input(number, types)) = &leaf.body {
                    ports.push(Port {
                        number: *number,
                        types: types.as_slice().to_vec(alloc)?,
                    })?;
                }
            }
        }
        Ok(Station {
            name: device.name.clone()?,
            resources,
            ports,
        })
    }

    /// The type of a value of an INPUT, by the numbers of both; values count from 1.
    pub(crate) fn type_of(&self, input: u16, place: u16) -> Option<ElemType> {
        let at = usize::from(place).checked_sub(1)?;
        for port in &self.ports {
            if port.number == input {
                return port.types.get(at).copied();
            }
        }
        None
    }
}

/// All devices of a system.
pub(crate) fn stations_of(alloc: Global, flat: &Flat) -> Result<Vec<Station>, AllocError> {
    let mut stations = Vec::new(alloc);
    for device in &flat.devices {
        stations.push(Station::of(alloc, device)?)?;
    }
    Ok(stations)
}

/// Writes a name of so many, behind those before it.
pub(crate) fn put_name(index: usize, count: usize, name: &str, writing: &mut Writing) {
    writing.put(if index == 0 {
        if count == 1 { " is " } else { "s are " }
    } else if index.saturating_add(1) == count {
        " and "
    } else {
        ", "
    });
    writing.put(name);
}
