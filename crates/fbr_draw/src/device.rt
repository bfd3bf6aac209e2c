//! Devices and resources.

use crate::cluster::{close_cluster, cross, end_label, open_cluster};
use crate::leaf::draw_leaf;
use crate::picture::Sheet;
use fb_cert::Certificate;
use fb_flat::{FlatDevice, FlatResource, Leaf};
use fbr_places::Writing;
use std::alloc::AllocError;

// Writes what a resource is called, and how deep its queue is.
fn write_label(certificate: Option<&Certificate>, path: &str, writing: &mut Writing) {
    let name = match path.split_once('.') {
        Some((_, name)) => name,
        None => path,
    };
    writing.put(name);
    let depth = match certificate {
        Some(certificate) => certificate.depth(path),
        None => None,
    };
    if let Some(depth) = depth {
        writing.put(" · queue of ");
        writing.show(&depth);
    }
}

// The path of the composite that a leaf stands in, or of its resource where composites have no boxes.
fn around<'a>(boxes: bool, resource: &'a str, leaf: &'a str) -> &'a str {
    if boxes {
        if let Some((path, _)) = leaf.rsplit_once('.') {
            return path;
        }
    }
    resource
}

// Draws the leaves of a resource, in the boxes of their composites.
fn draw_leaves(
    sheet: &Sheet<'_>,
    resource: &FlatResource,
    writing: &mut Writing,
) -> Result<(), AllocError> {
    let path = resource.path.as_str();
    let mut from = path;
    for leaf in &resource.leaves {
        let to = around(sheet.picture.boxes, path, leaf.path.as_str());
        cross(sheet, from, to, writing)?;
        draw_leaf(sheet, leaf, writing)?;
        from = to;
    }
    cross(sheet, from, path, writing)
}

// Draws a resource.
fn draw_resource(
    sheet: &Sheet<'_>,
    resource: &FlatResource,
    writing: &mut Writing,
) -> Result<(), AllocError> {
    let path = resource.path.as_str();
    open_cluster(path, "solid", writing);
    write_label(sheet.picture.certificate, path, writing);
    end_label(writing);
    draw_leaves(sheet, resource, writing)?;
    close_cluster(2, writing);
    Ok(())
}

/// Draws a device.
pub fn draw_device(
    sheet: &Sheet<'_>,
    device: &FlatDevice,
    writing: &mut Writing,
) -> Result<(), AllocError> {
    let name = device.name.as_str();
    open_cluster(name, "bold", writing);
    writing.put(name);
    end_label(writing);
    for resource in &device.resources {
        draw_resource(sheet, resource, writing)?;
    }
    close_cluster(1, writing);
    Ok(())
}
