//! The heads of leaves: their names, what they are, and the states of a walk.

use crate::margin::indent;
use crate::picture::Sheet;
use crate::walk::state_of;
use fb_flat::Leaf;
use fbr_leaves::number_of;
use fbr_needs::Step;
use fbr_places::{Writing, instance_at};

// The path of a leaf below its resource.
fn below_resource(path: &str) -> &str {
    match path.split_once('.') {
        Some((_, rest)) => match rest.split_once('.') {
            Some((_, below)) => below,
            None => rest,
        },
        None => path,
    }
}

// What a leaf is called: its own name, or its path where composites have no boxes.
fn name_of(boxes: bool, path: &str) -> &str {
    if boxes {
        match path.rsplit_once('.') {
            Some((_, name)) => name,
            None => path,
        }
    } else {
        below_resource(path)
    }
}

// Draws what a leaf is called, and below that its type and the number of a service.
fn draw_name(sheet: &Sheet<'_>, leaf: &Leaf, writing: &mut Writing) {
    let path = leaf.path.as_str();
    let name = name_of(sheet.picture.boxes, path);
    writing.put("<TR><TD COLSPAN=\"2\" PORT=\"head\" BGCOLOR=\"gray94\"><B>");
    writing.put(name);
    writing.put("</B>");
    if let Some(instance) = instance_at(sheet.picture.file, path) {
        writing.put("<BR/>");
        writing.put(instance.of_type.text.as_str());
    }
    if let Some(number) = number_of(leaf) {
        writing.put(" ");
        writing.show(&number);
    }
    writing.put("</TD></TR>\n");
}

// Draws the states of a leaf that a walk comes to, in a row if there are some.
fn draw_states(walk: &[Step<'_>], leaf: &str, depth: usize, writing: &mut Writing) {
    let mut begun = false;
    // The last place of a walk is the first again.
    for index in 0..walk.len().saturating_sub(1) {
        if let Some(state) = state_of(walk[index].place, leaf) {
            if begun {
                writing.put(" → ");
            } else {
                indent(depth, writing);
                writing.put("<TR><TD COLSPAN=\"2\"><FONT COLOR=\"red\">");
                begun = true;
            }
            writing.put(state);
        }
    }
    writing.put(if begun { "</FONT></TD></TR>\n" } else { "" });
}

/// Draws the head of a leaf.
pub fn draw_head(sheet: &Sheet<'_>, leaf: &Leaf, depth: usize, writing: &mut Writing) {
    indent(depth, writing);
    draw_name(sheet, leaf, writing);
    draw_states(sheet.picture.walk, leaf.path.as_str(), depth, writing);
}
