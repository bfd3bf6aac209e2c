//! Connections, as edges.

use crate::picture::Sheet;
use crate::walk::goes_to_event;
use fb_flat::{Input, Leaf, Output, Source, Target};
use fbr_leaves::Numbers;
use fbr_places::Writing;

/// What ends an edge, in red if a walk goes along it.
pub fn end_of_edge(is_walked: bool) -> &'static str {
    if is_walked { " [color=red];" } else { ";" }
}

// Draws a connection of an event output of a leaf, which has a number.
fn draw_event(
    sheet: &Sheet<'_>,
    leaf: &str,
    number: usize,
    name: &str,
    target: &Target,
    writing: &mut Writing,
) {
    let path = target.path.as_str();
    let event = target.event.as_str();
    if let Some(to) = sheet.numbers.get(path).copied() {
        let end = end_of_edge(goes_to_event(sheet.picture.walk, leaf, path, event));
        writing.put("    n");
        writing.show(&number);
        writing.put(":o_");
        writing.put(name);
        writing.put(":e -> n");
        writing.show(&to);
        writing.put(":i_");
        writing.put(event);
        writing.put(":w");
        writing.put(end);
        writing.put("\n");
    }
}

// Draws the connections of an event output of a leaf, which has a number.
fn draw_targets(
    sheet: &Sheet<'_>,
    leaf: &str,
    number: usize,
    event: &Output,
    writing: &mut Writing,
) {
    for target in &event.targets {
        draw_event(sheet, leaf, number, event.name.as_str(), target, writing);
    }
}

/// Draws the event connections of leaves, which are numbered from 0 on.
pub fn draw_events(sheet: &Sheet<'_>, leaves: &[&Leaf], writing: &mut Writing) {
    writing.put("  subgraph events {\n    edge [penwidth=1.4, weight=2];\n");
    for (number, leaf) in leaves.iter().enumerate() {
        for event in &leaf.outputs {
            draw_targets(sheet, leaf.path.as_str(), number, event, writing);
        }
    }
    writing.put("  }\n");
}

// Draws the connection of a data input of a leaf, which has a number.
fn draw_value(numbers: &Numbers, number: usize, input: &Input, writing: &mut Writing) {
    let name = input.name.as_str();
    match &input.source {
        Source::Output(path, port) => match numbers.get(path.as_str()).copied() {
            Some(from) => {
                writing.put("    n");
                writing.show(&from);
                writing.put(":r_");
                writing.put(port.as_str());
                writing.put(":e -> n");
                writing.show(&number);
                writing.put(":d_");
                writing.put(name);
                writing.put(":w;\n");
            }
            None => {}
        },
        Source::Number(_) | Source::Zeros(_, _) => {}
    }
}

/// Draws the data connections of leaves, which are numbered from 0 on.
pub fn draw_values(sheet: &Sheet<'_>, leaves: &[&Leaf], writing: &mut Writing) {
    writing.put("  subgraph data {\n    edge [style=dashed, color=gray50, arrowsize=0.5];\n");
    for (number, leaf) in leaves.iter().enumerate() {
        for input in &leaf.inputs {
            draw_value(sheet.numbers, number, input, writing);
        }
    }
    writing.put("  }\n");
}
