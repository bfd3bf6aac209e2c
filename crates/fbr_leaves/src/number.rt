//! Leaves in their order, and their numbers.

use fb_flat::{Flat, FlatResource, Leaf};
use indexmap::IndexMap;
use std::alloc::{AllocError, Global};

/// The numbers of leaves, by their paths.
pub type Numbers = IndexMap<String, usize>;

/// The leaves of a resource, in order.
pub fn leaves_in<'a>(
    alloc: Global,
    resource: &'a FlatResource,
) -> Result<Vec<&'a Leaf>, AllocError> {
    let mut leaves = Vec::new(alloc);
    for leaf in &resource.leaves {
        leaves.push(leaf)?;
    }
    Ok(leaves)
}

/// The leaves of a system, in order.
pub fn leaves_of<'a>(alloc: Global, flat: &'a Flat) -> Result<Vec<&'a Leaf>, AllocError> {
    let mut leaves = Vec::new(alloc);
    for device in &flat.devices {
        for resource in &device.resources {
            for leaf in &resource.leaves {
                leaves.push(leaf)?;
            }
        }
    }
    Ok(leaves)
}

/// Numbers for leaves, from 0 on.
pub fn numbered(alloc: Global, leaves: &[&Leaf]) -> Result<Numbers, AllocError> {
    let mut numbers = IndexMap::new(alloc);
    for (number, leaf) in leaves.iter().enumerate() {
        numbers.insert(leaf.path.clone()?, number)?;
    }
    Ok(numbers)
}
