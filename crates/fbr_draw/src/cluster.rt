//! Boxes around what devices, resources and composites have in them.

use crate::margin::{depth_of, indent, line};
use crate::picture::Sheet;
use fbr_places::{Writing, instance_at};
use std::alloc::AllocError;

/// Begins a box in a style, at the depth of the names of its path, up to the text of its label.
pub fn open_cluster(path: &str, style: &str, writing: &mut Writing) {
    let depth = depth_of(path);
    indent(depth, writing);
    writing.put("subgraph \"cluster_");
    writing.put(path);
    writing.put("\" {\n");
    let inside = depth.saturating_add(1);
    indent(inside, writing);
    writing.put("style=");
    writing.put(style);
    writing.put(";\n");
    line(inside, "margin=14;", writing);
    indent(inside, writing);
    writing.put("label=\"");
}

/// Ends the label of a box.
pub fn end_label(writing: &mut Writing) {
    writing.put("\";\n");
}

/// Ends a box at a depth.
pub fn close_cluster(depth: usize, writing: &mut Writing) {
    line(depth, "}", writing);
}

// How many names two paths begin with in common.
fn shared(one: &str, other: &str) -> usize {
    let mut count: usize = 0;
    for (left, right) in one.split('.').zip(other.split('.')) {
        if left != right {
            return count;
        }
        count = count.saturating_add(1);
    }
    count
}

// Begins the box of a composite.
fn open_composite(sheet: &Sheet<'_>, path: &str, name: &str, writing: &mut Writing) {
    open_cluster(path, "dashed", writing);
    writing.put(name);
    if let Some(instance) = instance_at(sheet.picture.file, path) {
        writing.put(" : ");
        writing.put(instance.of_type.text.as_str());
    }
    end_label(writing);
}

// Ends the boxes of composites that are around one path and not around another.
fn close_composites(from: &str, to: &str, writing: &mut Writing) {
    for depth in (shared(from, to)..depth_of(from)).rev() {
        close_cluster(depth.saturating_add(1), writing);
    }
}

// Begins the boxes of composites that are around one path and not around another.
fn open_composites(
    sheet: &Sheet<'_>,
    from: &str,
    to: &str,
    writing: &mut Writing,
) -> Result<(), AllocError> {
    let kept = shared(from, to);
    let mut path = String::new(sheet.alloc);
    for (index, name) in to.split('.').enumerate() {
        if index > 0 {
            path.push('.')?;
        }
        path.push_str(name)?;
        if index >= kept {
            open_composite(sheet, path.as_str(), name, writing);
        }
    }
    Ok(())
}

/// Goes on in another composite of a resource: ends the boxes that one is in alone, and begins those that the other is in alone.
pub fn cross(
    sheet: &Sheet<'_>,
    from: &str,
    to: &str,
    writing: &mut Writing,
) -> Result<(), AllocError> {
    close_composites(from, to, writing);
    open_composites(sheet, from, to, writing)
}
