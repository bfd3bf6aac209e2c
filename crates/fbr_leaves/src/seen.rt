//! Parts of a flattened system, by their paths.

use fb_flat::{Body, Flat, FlatResource, Leaf};
use fb_types_blocks::Block;

/// The leaf of a path.
pub fn leaf_at<'a>(flat: &'a Flat, path: &str) -> Option<&'a Leaf> {
    for device in &flat.devices {
        for resource in &device.resources {
            for leaf in &resource.leaves {
                if leaf.path.as_str() == path {
                    return Some(leaf);
                }
            }
        }
    }
    None
}

/// The resource of a path.
pub fn resource_at<'a>(flat: &'a Flat, path: &str) -> Option<&'a FlatResource> {
    for device in &flat.devices {
        for resource in &device.resources {
            if resource.path.as_str() == path {
                return Some(resource);
            }
        }
    }
    None
}

/// The leaf that has the place of a path, and the place's name there.
pub fn place_at<'a, 'p>(flat: &'a Flat, path: &'p str) -> Option<(&'a Leaf, &'p str)> {
    let (front, name) = path.rsplit_once('.')?;
    Some((leaf_at(flat, front)?, name))
}

/// The basic block of a leaf.
pub fn block_in(leaf: &Leaf) -> Option<&Block> {
    match &leaf.body {
        Body::Basic(block) => Some(block),
        Body::Served(_) => None,
    }
}
