//! The way from an arrival to a block, one dispatch a step.

use fb_flat::{Body, Flat, FlatResource, Leaf};
use fbr_leaves::{Numbers, leaves_in, numbered};
use fbr_places::Writing;
use fbr_words::Way;
use std::alloc::{AllocError, Global};

/// A way: the leaves that are dispatched one after another, the first with its arrival.
#[derive(Drop)]
pub(crate) struct Found<'a> {
    pub event: &'static str,
    pub leaves: Vec<&'a Leaf>,
}

/// Why no way is told, or no arrival is found.
#[derive(Clone, Copy)]
pub enum WayFault<'a> {
    Memory,
    /// No instance has this name.
    Unknown(&'a str),
    /// More than one has it.
    Many(&'a str),
    /// The instance of this name has no arrival.
    NoArrival(&'a str),
    /// The second is in another resource than the first.
    Apart(&'a str, &'a str),
    /// No event leads from the first to the second.
    None(&'a str, &'a str),
}

impl<'a> From<AllocError> for WayFault<'a> {
    fn from(_fault: AllocError) -> WayFault<'a> {
        WayFault::Memory
    }
}

// Whether a path ends with a name, or is it.
fn is_named(path: &str, name: &str) -> bool {
    match path.strip_suffix(name) {
        Some(front) => front.is_empty() || front.ends_with('.'),
        None => false,
    }
}

/// The only leaf of a name, with its resource.
pub(crate) fn leaf_of<'a, 'w>(
    flat: &'a Flat,
    name: &'w str,
) -> Result<(&'a FlatResource, &'a Leaf), WayFault<'w>> {
    let mut found = None;
    for device in &flat.devices {
        for resource in &device.resources {
            for leaf in &resource.leaves {
                if is_named(leaf.path.as_str(), name) {
                    if found.is_some() {
                        return Err(WayFault::Many(name));
                    }
                    found = Some((resource, leaf));
                }
            }
        }
    }
    match found {
        Some(found) => Ok(found),
        None => Err(WayFault::Unknown(name)),
    }
}

// From where each leaf was reached first, by numbers.
#[derive(Drop)]
struct Reached {
    from: Vec<Option<usize>>,
    queue: Vec<usize>,
}

// Reaches the first of so many leaves.
fn begin(count: usize, first: usize, reached: &mut Reached) -> Result<(), AllocError> {
    for _ in 0..count {
        reached.from.push(None)?;
    }
    if let Some(slot) = reached.from.get_mut(first) {
        *slot = Some(first);
    }
    reached.queue.push(first)?;
    Ok(())
}

// Reaches a leaf from another one, if nothing has reached it before.
fn reach_one(reached: &mut Reached, from: usize, next: usize) -> Result<(), AllocError> {
    if let Some(slot) = reached.from.get_mut(next) {
        if slot.is_none() {
            *slot = Some(from);
            reached.queue.push(next)?;
        }
    }
    Ok(())
}

// Reaches what the outputs of a leaf lead to.
fn go_on(
    numbers: &Numbers,
    leaf: &Leaf,
    number: usize,
    reached: &mut Reached,
) -> Result<(), AllocError> {
    for output in &leaf.outputs {
        for target in &output.targets {
            if let Some(next) = numbers.get(target.path.as_str()) {
                reach_one(reached, number, *next)?;
            }
        }
    }
    Ok(())
}

// Reaches all that a first leaf leads to.
fn reach(
    leaves: &[&Leaf],
    numbers: &Numbers,
    first: usize,
    reached: &mut Reached,
) -> Result<(), AllocError> {
    begin(leaves.len(), first, reached)?;
    for index in 0..leaves.len() {
        let Some(number) = reached.queue.get(index).copied() else {
            return Ok(());
        };
        if let Some(leaf) = leaves.get(number) {
            go_on(numbers, *leaf, number, reached)?;
        }
    }
    Ok(())
}

// Adds the leaves from the first to the last, and answers whether one leads to the other.
fn add_steps<'a>(
    leaves: &[&'a Leaf],
    from: &[Option<usize>],
    last: usize,
    way: &mut Vec<&'a Leaf>,
) -> Result<bool, AllocError> {
    let mut here = last;
    for _ in 0..leaves.len() {
        let Some(Some(before)) = from.get(here).copied() else {
            return Ok(false);
        };
        if let Some(leaf) = leaves.get(here) {
            way.push(*leaf)?;
        }
        if before == here {
            way.reverse();
            return Ok(true);
        }
        here = before;
    }
    Ok(false)
}

/// The arrival of a leaf, which has this name.
pub(crate) fn arrival_of<'w>(leaf: &Leaf, name: &'w str) -> Result<&'static str, WayFault<'w>> {
    let event = match &leaf.body {
        Body::Served(service) => service.arrival(),
        Body::Basic(_) => None,
    };
    match event {
        Some(event) => Ok(event),
        None => Err(WayFault::NoArrival(name)),
    }
}

// Both ends of a way, and the resource in which they are.
#[derive(Clone, Copy)]
struct Ends<'a> {
    resource: &'a FlatResource,
    from: &'a Leaf,
    to: &'a Leaf,
    event: &'static str,
}

// Both ends of the way that is asked for.
fn ends_of<'a, 'w>(flat: &'a Flat, way: Way<'w>) -> Result<Ends<'a>, WayFault<'w>> {
    let (resource, from) = leaf_of(flat, way.from)?;
    let (other, to) = leaf_of(flat, way.to)?;
    let event = arrival_of(from, way.from)?;
    if resource.path.as_str() != other.path.as_str() {
        return Err(WayFault::Apart(way.from, way.to));
    }
    Ok(Ends {
        resource,
        from,
        to,
        event,
    })
}

// Adds the leaves of the shortest way, and answers whether there is one.
fn add_way<'a>(
    ends: Ends<'a>,
    leaves: &[&'a Leaf],
    numbers: &Numbers,
    reached: &mut Reached,
    way: &mut Vec<&'a Leaf>,
) -> Result<bool, AllocError> {
    let Some(first) = numbers.get(ends.from.path.as_str()) else {
        return Ok(false);
    };
    let Some(last) = numbers.get(ends.to.path.as_str()) else {
        return Ok(false);
    };
    reach(leaves, numbers, *first, reached)?;
    add_steps(leaves, &reached.from, *last, way)
}

// Adds the leaves of the shortest way among these leaves, and answers whether there is one.
fn add_between<'a>(
    alloc: Global,
    ends: Ends<'a>,
    leaves: &[&'a Leaf],
    way: &mut Vec<&'a Leaf>,
) -> Result<bool, AllocError> {
    let numbers = numbered(alloc, leaves)?;
    let mut reached = Reached {
        from: Vec::new(alloc),
        queue: Vec::new(alloc),
    };
    let found = add_way(ends, leaves, &numbers, &mut reached, way);
    drop(numbers);
    drop(reached);
    found
}

// Adds the leaves of the shortest way in a resource, and answers whether there is one.
fn add_found<'a>(
    alloc: Global,
    ends: Ends<'a>,
    way: &mut Vec<&'a Leaf>,
) -> Result<bool, AllocError> {
    let leaves = leaves_in(alloc, ends.resource)?;
    let found = add_between(alloc, ends, leaves.as_slice(), way);
    drop(leaves);
    found
}

/// The shortest way from the arrival of one instance to another.
pub(crate) fn way_of<'a, 'w>(
    alloc: Global,
    flat: &'a Flat,
    way: Way<'w>,
) -> Result<Found<'a>, WayFault<'w>> {
    let ends = ends_of(flat, way)?;
    let mut leaves = Vec::new(alloc);
    let fault = match add_found(alloc, ends, &mut leaves) {
        Ok(true) => {
            return Ok(Found {
                event: ends.event,
                leaves,
            });
        }
        Ok(false) => WayFault::None(way.from, way.to),
        Err(AllocError) => WayFault::Memory,
    };
    drop(leaves);
    Err(fault)
}

/// Writes a way.
pub(crate) fn put_way(found: &Found<'_>, turns: u64, writing: &mut Writing) {
    writing.put("way:");
    for (index, leaf) in found.leaves.iter().enumerate() {
        writing.put(if index == 0 { " 1 " } else { ", " });
        if index > 0 {
            writing.show(&index.saturating_add(1));
            writing.put(" ");
        }
        writing.put(leaf.path.as_str());
    }
    writing.put("\n     at the earliest in dispatch ");
    writing.show(&found.leaves.len());
    writing.put(", and within ");
    writing.show(&turns);
    writing.put(" turns from admission\n");
}
