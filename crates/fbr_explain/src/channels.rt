//! Channels of what fits, told to people: who sends on them, where their datagrams come to, and what a datagram causes at most.

use fb_flat::{Body, Flat, Leaf, joined};
use fb_types_services::Channel;
use fb_verified::Verified;
use fbr_leaves::{Numbers, admitted, channel_of, received_from, sent_on};
use fbr_places::Writing;
use indexmap::{IndexMap, IndexSet};
use std::alloc::{AllocError, Global};

/// The leaves of a resource, and their numbers.
#[derive(Clone, Copy)]
pub struct Ways<'a> {
    pub numbers: &'a Numbers,
    pub leaves: &'a [&'a Leaf],
}

impl<'a> Ways<'a> {
    // The leaf of a path.
    fn leaf_at(self, path: &str) -> Option<&'a Leaf> {
        let number = self.numbers.get(path)?;
        self.leaves.get(*number).copied()
    }
}

// Events that can come about at leaves, each once.
#[derive(Drop)]
struct Events<'a> {
    paths: IndexSet<String>,
    all: Vec<(&'a Leaf, &'a str)>,
}

impl<'a> Events<'a> {
    // Adds an event at a leaf, if it is not there.
    fn add(&mut self, alloc: Global, leaf: &'a Leaf, event: &'a str) -> Result<(), AllocError> {
        let path = joined(alloc, leaf.path.as_str(), event)?;
        if !self.paths.contains(path.as_str()) {
            self.paths.insert(path)?;
            self.all.push((leaf, event))?;
        }
        Ok(())
    }
}

// Whether an event at a leaf can emit this output: of a basic block each can emit all.
fn is_emitted(leaf: &Leaf, event: &str, output: &str) -> bool {
    match &leaf.body {
        Body::Basic(_) => true,
        Body::Served(service) => {
            for name in service.emitted(event) {
                if *name == output {
                    return true;
                }
            }
            false
        }
    }
}

// Adds the events to which those connections lead that an event at a leaf can take.
fn add_targets<'a>(
    alloc: Global,
    ways: Ways<'a>,
    leaf: &'a Leaf,
    event: &str,
    found: &mut Events<'a>,
) -> Result<(), AllocError> {
    for output in &leaf.outputs {
        if is_emitted(leaf, event, output.name.as_str()) {
            for target in &output.targets {
                if let Some(next) = ways.leaf_at(target.path.as_str()) {
                    found.add(alloc, next, target.event.as_str())?;
                }
            }
        }
    }
    Ok(())
}

// A resource has at most so many leaves times event inputs.
const MOST_EVENTS: usize = 65_536;

/// The channels on which an event at a leaf of a resource can be sent on, by the connections of events.
pub fn channels_behind<'a>(
    alloc: Global,
    ways: Ways<'a>,
    leaf: &'a Leaf,
    event: &'a str,
) -> Result<IndexSet<u16>, AllocError> {
    let mut channels = IndexSet::new(alloc);
    let mut found = Events {
        paths: IndexSet::new(alloc),
        all: Vec::new(alloc),
    };
    found.add(alloc, leaf, event)?;
    for index in 0..MOST_EVENTS {
        let Some((leaf, event)) = found.all.get(index).copied() else {
            break;
        };
        match sent_on(leaf) {
            Some(channel) if event != "INIT" => {
                channels.insert(channel.number)?;
            }
            _ => {}
        }
        add_targets(alloc, ways, leaf, event, &mut found)?;
    }
    Ok(channels)
}

/// The leaves of each channel, in text order.
pub fn leaves_by_channel<'a>(
    alloc: Global,
    flat: &'a Flat,
) -> Result<IndexMap<u16, Vec<&'a Leaf>>, AllocError> {
    let mut found: IndexMap<u16, Vec<&'a Leaf>> = IndexMap::new(alloc);
    for device in &flat.devices {
        for resource in &device.resources {
            for leaf in &resource.leaves {
                if let Some(channel) = channel_of(leaf) {
                    match found.get_mut(&channel.number) {
                        Some(leaves) => leaves.push(leaf)?,
                        None => {
                            let mut leaves = Vec::new(alloc);
                            leaves.push(leaf)?;
                            found.insert(channel.number, leaves)?;
                        }
                    }
                }
            }
        }
    }
    Ok(found)
}

// Writes what each datagram of a channel may cause where it arrives: there, and on all devices if they are known.
fn tell_steps(verified: &Verified, path: &str, writing: &mut Writing) {
    writing.put("at most ");
    writing.show(&verified.steps_of(path).unwrap_or(0));
    writing.put(" steps there");
    if let Some(far) = verified.far_of(path) {
        writing.put(", ");
        writing.show(&far);
        writing.put(" on all devices");
    }
    writing.put("\n");
}

// Writes how often a datagram may be admitted, if a certificate says it.
fn tell_times(repeats: Option<u8>, channel: &Channel, writing: &mut Writing) {
    match repeats {
        Some(repeats) => match admitted(repeats, channel) {
            1 => writing.put("once, "),
            times => {
                writing.put("at most ");
                writing.show(&times);
                writing.put(" times, each ");
            }
        },
        None => {}
    }
}

// Writes a leaf that sends or receives.
fn tell_end(
    alloc: Global,
    verified: &Verified,
    leaf: &Leaf,
    writing: &mut Writing,
) -> Result<(), AllocError> {
    match received_from(leaf) {
        Some(channel) => {
            let path = joined(alloc, leaf.path.as_str(), "ARRIVE")?;
            writing.put("        to ");
            writing.put(path.as_str());
            writing.put(": ");
            tell_times(verified.certificate().repeats(), channel, writing);
            tell_steps(verified, path.as_str(), writing);
            Ok(())
        }
        None => {
            writing.put("        from ");
            writing.put(leaf.path.as_str());
            writing.put("\n");
            Ok(())
        }
    }
}

// Writes the number of a channel, and what a datagram of it causes on all devices if that is known.
fn tell_channel(verified: &Verified, number: u16, writing: &mut Writing) {
    writing.put("    channel ");
    writing.show(&number);
    if let Some(steps) = verified.certificate().channel(number) {
        writing.put(": a datagram causes at most ");
        writing.show(&steps);
        writing.put(" steps on all devices");
    }
    writing.put("\n");
}

// Writes what is supposed of the network.
fn tell_title(repeats: Option<u8>, writing: &mut Writing) {
    match repeats {
        Some(repeats) => {
            writing.put("channels, where the network brings no datagram more than ");
            writing.show(&repeats);
            writing.put(" times to a device:\n");
        }
        None => writing.put(
            "channels, whose datagrams are followed with 'fbr bound --repeats N':\n",
        ),
    }
}

/// Writes the channels of what fits, if there are some: from where to where, and with a row REPEATS how often and what a datagram causes.
pub fn tell_channels(
    alloc: Global,
    verified: &Verified,
    writing: &mut Writing,
) -> Result<(), AllocError> {
    let found = leaves_by_channel(alloc, verified.flat())?;
    if found.is_empty() {
        return Ok(());
    }
    tell_title(verified.certificate().repeats(), writing);
    for (number, leaves) in &found {
        tell_channel(verified, *number, writing);
        for leaf in leaves {
            tell_end(alloc, verified, *leaf, writing)?;
        }
    }
    Ok(())
}
