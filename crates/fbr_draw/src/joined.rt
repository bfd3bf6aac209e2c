//! The ports that connections lead to or from.

use fb_flat::{Leaf, Source, joined};
use indexmap::IndexSet;
use std::alloc::{AllocError, Global};

/// The paths of event inputs that events are led to, and of data outputs that values are taken from.
pub type Joined = IndexSet<String>;

// Adds what the event outputs of a leaf lead to.
fn add_targets(alloc: Global, leaf: &Leaf, ports: &mut Joined) -> Result<(), AllocError> {
    for output in &leaf.outputs {
        for target in &output.targets {
            let path = joined(alloc, target.path.as_str(), target.event.as_str())?;
            ports.insert(path)?;
        }
    }
    Ok(())
}

// Adds what the data inputs of a leaf take their values from.
fn add_sources(alloc: Global, leaf: &Leaf, ports: &mut Joined) -> Result<(), AllocError> {
    for input in &leaf.inputs {
        if let Source::Output(path, port) = &input.source {
            ports.insert(joined(alloc, path.as_str(), port.as_str())?)?;
        }
    }
    Ok(())
}

/// The ports of leaves that are joined to others.
pub fn joined_ports(alloc: Global, leaves: &[&Leaf]) -> Result<Joined, AllocError> {
    let mut ports = IndexSet::new(alloc);
    for leaf in leaves {
        add_targets(alloc, *leaf, &mut ports)?;
        add_sources(alloc, *leaf, &mut ports)?;
    }
    Ok(ports)
}

/// Whether a port of a leaf is joined to another.
pub fn is_joined(
    alloc: Global,
    ports: &Joined,
    leaf: &str,
    port: &str,
) -> Result<bool, AllocError> {
    let path = joined(alloc, leaf, port)?;
    Ok(ports.contains(path.as_str()))
}
