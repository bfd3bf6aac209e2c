//! What the INPUTs and SUBSCRIBEs of a system take, for what people are told of a message that has another shape. It is tested, and no contract says it.

use fb_flat::{Body, Flat, FlatDevice};
use fb_types_services::Service;
use fb_wire::{Message, Purpose};
use fb_words::{ElemType, Format};
use std::alloc::{AllocError, Global};
use std::fmt;

// What something takes: for what messages are that come to it, their format, and the types of their values.
#[derive(Drop)]
struct Shape {
    purpose: Purpose,
    number: u16,
    format: Format,
    types: Vec<ElemType>,
}

// The shapes of a device, and its name.
#[derive(Drop)]
struct Station {
    name: String,
    shapes: Vec<Shape>,
}

/// What the devices of a system take.
#[derive(Drop)]
pub struct Shapes {
    stations: Vec<Station>,
}

/// How a message differs from what is taken.
#[derive(Clone, Copy)]
pub enum Misfit {
    /// It has the one format, and the other is taken.
    Format,
    /// It has so many values, and so many are taken.
    Count(usize, usize),
    /// The value of this place, counted from 1, has a type, and another is taken.
    Type(usize, ElemType, ElemType),
    /// It is not known.
    Other,
}

impl fmt::Display for Misfit {
    fn fmt<W: fmt::Write>(&self, f: &mut fmt::Formatter<W>) -> fmt::Result {
        match self {
            Misfit::Format => write!(f, "it has another format than is taken"),
            Misfit::Count(found, wanted) => {
                write!(f, "it has another number of values: {found}, not {wanted}")
            }
            Misfit::Type(place, found, wanted) => {
                let found = found.name();
                let wanted = wanted.name();
                write!(f, "value {place} is of {found}, and {wanted} is taken")
            }
            Misfit::Other => write!(f, "it has another format, or other values"),
        }
    }
}

// What the services of a device take.
fn shapes_in(alloc: Global, device: &FlatDevice) -> Result<Vec<Shape>, AllocError> {
    let mut shapes = Vec::new(alloc);
    for resource in &device.resources {
        for leaf in &resource.leaves {
            match &leaf.body {
                Body::Served(Service::Input(number, types)) => shapes.push(Shape {
                    purpose: Purpose::ToInput,
                    number: *number,
                    format: Format::First,
                    types: types.as_slice().to_vec(alloc)?,
                })?,
                Body::Served(Service::Subscribe(channel, types)) => shapes.push(Shape {
                    purpose: Purpose::ToChannel,
                    number: channel.number,
                    format: channel.format,
                    types: types.as_slice().to_vec(alloc)?,
                })?,
                _ => {}
            }
        }
    }
    Ok(shapes)
}

// What all devices take.
fn stations_in(alloc: Global, flat: &Flat) -> Result<Vec<Station>, AllocError> {
    let mut stations = Vec::new(alloc);
    for device in &flat.devices {
        stations.push(Station {
            name: device.name.clone()?,
            shapes: shapes_in(alloc, device)?,
        })?;
    }
    Ok(stations)
}

// Whether messages of these are for the same.
fn is_same(one: Purpose, other: Purpose) -> bool {
    matches!(
        (one, other),
        (Purpose::ToInput, Purpose::ToInput) | (Purpose::ToChannel, Purpose::ToChannel)
    )
}

impl Shape {
    // How a message differs.
    fn misfit(&self, message: &Message) -> Misfit {
        let is_second = matches!(self.format, Format::Second);
        if message.stamp().is_some() != is_second {
            return Misfit::Format;
        }
        let values = message.values();
        if values.len() != self.types.len() {
            return Misfit::Count(values.len(), self.types.len());
        }
        let mut place: usize = 1;
        for (value, of_type) in values.iter().zip(&self.types) {
            if value.elem != *of_type {
                return Misfit::Type(place, value.elem, *of_type);
            }
            place = place.saturating_add(1);
        }
        Misfit::Other
    }
}

impl Shapes {
    /// Those of a system; none if memory runs out.
    pub fn of(alloc: Global, flat: &Flat) -> Shapes {
        let stations = match stations_in(alloc, flat) {
            Ok(stations) => stations,
            Err(_) => Vec::new(alloc),
        };
        Shapes { stations }
    }

    /// How a message to a device differs from what is taken there.
    pub fn misfit(&self, device: &str, message: &Message) -> Misfit {
        for station in &self.stations {
            if station.name.as_str() == device {
                for shape in &station.shapes {
                    if is_same(shape.purpose, message.purpose())
                        && shape.number == message.number()
                    {
                        return shape.misfit(message);
                    }
                }
            }
        }
        Misfit::Other
    }
}
