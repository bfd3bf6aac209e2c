//! Values that a service does not carry, and ends of connections without a port.

use crate::ends::port_of;
use fb_tree::{ConnectionTree, InstanceTree, PortTree};
use fb_types_services::points::{RD, SD};
use fb_words::{ElemType, Mark};
use fbr_advice::advice::Advice;
use fbr_advice::candidates::{add_of_block, add_values};
use fbr_advice::tokens::{mark_of, name_of};
use fbr_advice::wanted::{Cursor, Wanted};
use fbr_places::{Port, Types, block_around, instance_named, network_around};
use std::alloc::{AllocError, Global};

// The number of a value of a service, by the name of its port.
fn value_number(instance: &InstanceTree, wanted: Wanted, name: &str) -> Option<u32> {
    let prefix = match (instance.of_type.text.as_str(), wanted) {
        ("OUTPUT" | "PUBLISH", Wanted::Input) => SD,
        ("INPUT" | "SUBSCRIBE", Wanted::Output) => RD,
        _ => return None,
    };
    name.strip_prefix(prefix)?.parse::<u32>().ok()
}

// Whether the second name of an end is at a byte.
fn is_at(end: &PortTree, at: usize) -> bool {
    match &end.second {
        Some(name) => name.at == at,
        None => false,
    }
}

// The other end of the data connection one of whose ports is named at a byte.
fn other_end(connections: &[ConnectionTree], at: usize) -> Option<&PortTree> {
    for connection in connections {
        if is_at(&connection.target, at) {
            return Some(&connection.source);
        }
        if is_at(&connection.source, at) {
            return Some(&connection.target);
        }
    }
    None
}

// The type of the other end of the data connection one of whose ports is named at a byte.
fn other_type(types: Types<'_>, at: usize) -> Option<ElemType> {
    let network = network_around(types.file, at)?;
    let end = other_end(&network.values, at)?;
    match port_of(types, network, block_around(types.file, at), end)? {
        Port::Input(of_type) | Port::Output(of_type) => Some(of_type),
        _ => None,
    }
}

// Writes how many values a service carries.
fn put_count(instance: &InstanceTree, prefix: &str, count: usize, advice: &mut Advice) {
    advice.said.put(instance.name.text.as_str());
    if count == 0 {
        advice
            .said
            .put(" is declared without types, so it carries no values");
        return;
    }
    advice.said.put(" carries ");
    if count == 1 {
        advice.said.put("one value, ");
    } else {
        advice.said.show(&count);
        advice.said.put(" values, ");
        advice.said.put(prefix);
        advice.said.put("1 to ");
    }
    advice.said.put(prefix);
    advice.said.show(&count);
}

// Writes how to declare a service so that it carries the value at the other end of a connection too.
fn put_types(
    types: Types<'_>,
    instance: &InstanceTree,
    count: usize,
    at: usize,
    advice: &mut Advice,
) {
    let given = match other_type(types, at) {
        Some(of_type) => of_type.name(),
        None => "..",
    };
    if count == 0 {
        advice.end("declare it as ", instance.of_type.text.as_str());
        advice.remedy.put("[");
        advice.remedy.put(given);
        advice.remedy.put("](..)");
    } else {
        advice.end("add ", given);
        advice.remedy.put(" to the types in its square brackets, or take this connection out");
    }
}

/// Writes how many values a service carries, where a port is named that would be of a further one; and whether it is so.
pub fn tell_values(
    types: Types<'_>,
    instance: &InstanceTree,
    wanted: Wanted,
    name: &str,
    at: usize,
    advice: &mut Advice,
) -> bool {
    let Some(number) = value_number(instance, wanted, name) else {
        return false;
    };
    if number == 0 {
        return false;
    }
    let count = match &instance.types {
        Some(types) => types.len(),
        None => 0,
    };
    let prefix = if matches!(wanted, Wanted::Input) {
        SD
    } else {
        RD
    };
    put_count(instance, prefix, count, advice);
    put_types(types, instance, count, at, advice);
    true
}

// What a port of an instance has to be where one of the composite itself was looked for.
fn inner(wanted: Wanted) -> Option<Wanted> {
    match wanted {
        Wanted::EventInput => Some(Wanted::EventOutput),
        Wanted::EventOutput => Some(Wanted::EventInput),
        Wanted::Input => Some(Wanted::Output),
        Wanted::Output => Some(Wanted::Input),
        _ => None,
    }
}

// Writes a port of an instance that could stand at an end.
fn put_port(
    alloc: Global,
    types: Types<'_>,
    instance: &InstanceTree,
    wanted: Wanted,
    advice: &mut Advice,
) -> Result<(), AllocError> {
    let mut names = Vec::new(alloc);
    if let Some(block) = types.block(instance.of_type.text.as_str()) {
        add_of_block(block, wanted, &mut names)?;
    }
    add_values(alloc, instance, wanted, &mut names)?;
    advice.remedy.put("name its port, as ");
    advice.remedy.put(instance.name.text.as_str());
    advice.remedy.put(".");
    match names.first() {
        Some(name) => advice.remedy.put(name.as_str()),
        None => advice.remedy.put(".."),
    }
    Ok(())
}

/// Writes that a name is that of an instance whose port is missing, or that a resource has no ports of its own; and whether it is so.
pub fn tell_absent_port(
    alloc: Global,
    types: Types<'_>,
    place: Cursor<'_>,
    wanted: Wanted,
    at: usize,
    advice: &mut Advice,
) -> Result<bool, AllocError> {
    let is_end = matches!(
        place.section(),
        (Some(Mark::EventConnections | Mark::DataConnections), _)
    );
    let (Some(name), Some(inner), Some(network)) = (
        name_of(place.before(0)),
        inner(wanted),
        network_around(types.file, at),
    ) else {
        return Ok(false);
    };
    if !is_end || matches!(mark_of(place.before(1)), Some(Mark::Dot)) {
        return Ok(false);
    }
    if let Some(instance) = instance_named(network, name) {
        advice.said.put(name);
        advice.said.put(" is an instance, and a connection needs one of its ports\n");
        put_port(alloc, types, instance, inner, advice)?;
        return Ok(true);
    }
    if block_around(types.file, at).is_some() {
        return Ok(false);
    }
    advice.said.put("a resource has no ports of its own, and this one has no instance ");
    advice.said.put(name);
    advice.end("name the instance before the port, as LAMP.", name);
    Ok(true)
}
