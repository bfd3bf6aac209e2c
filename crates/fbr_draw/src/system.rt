//! Systems.

use crate::channel::draw_channels;
use crate::device::draw_device;
use crate::edge::{draw_events, draw_values};
use crate::joined::joined_ports;
use crate::legend::write_legend;
use crate::picture::{Picture, Sheet};
use fb_flat::Flat;
use fbr_leaves::{leaves_of, numbered};
use fbr_places::Writing;
use std::alloc::{AllocError, Global};

// Writes how everything is drawn of which nothing else is said.
fn write_defaults(writing: &mut Writing) {
    writing.put("  rankdir=LR;\n  ranksep=0.8;\n  nodesep=0.3;\n");
    writing.put("  graph [fontname=\"Helvetica\", fontsize=12, labeljust=l];\n");
    writing.put("  node [shape=plain, fontname=\"Helvetica\", fontsize=10];\n");
    writing.put("  edge [arrowsize=0.7];\n");
}

/// Writes the system as a graph in DOT.
pub fn draw(
    alloc: Global,
    flat: &Flat,
    picture: &Picture<'_>,
    writing: &mut Writing,
) -> Result<(), AllocError> {
    let leaves = leaves_of(alloc, flat)?;
    let numbers = numbered(alloc, leaves.as_slice())?;
    let joined = joined_ports(alloc, leaves.as_slice())?;
    let sheet = Sheet {
        alloc,
        picture,
        numbers: &numbers,
        joined: &joined,
    };
    writing.put("digraph \"");
    writing.put(picture.file.system.name.text.as_str());
    writing.put("\" {\n");
    write_defaults(writing);
    write_legend(alloc, picture, writing)?;
    for device in &flat.devices {
        draw_device(&sheet, device, writing)?;
    }
    draw_events(&sheet, leaves.as_slice(), writing);
    draw_values(&sheet, leaves.as_slice(), writing);
    draw_channels(&sheet, leaves.as_slice(), writing)?;
    writing.put("}\n");
    Ok(())
}
