//! Leaves, as tables: their heads, events and below these their data.

use crate::head::draw_head;
use crate::margin::{depth_of, indent, line};
use crate::picture::Sheet;
use crate::port::{draw_arrival, draw_event_input, draw_event_output, draw_input, draw_output};
use crate::walk::comes_to;
use fb_flat::{Body, Leaf};
use fbr_places::Writing;
use std::alloc::{AllocError, Global};

// The event inputs of a leaf.
fn event_inputs<'a>(alloc: Global, body: &'a Body) -> Result<Vec<&'a str>, AllocError> {
    let mut names = Vec::new(alloc);
    match body {
        Body::Basic(block) => {
            for name in block.face.event_inputs.keys() {
                names.push(name.as_str())?;
            }
        }
        Body::Served(service) => {
            for name in service.event_inputs() {
                names.push(*name)?;
            }
        }
    }
    Ok(names)
}

// The data outputs of a leaf.
fn outputs(alloc: Global, body: &Body) -> Result<Vec<String>, AllocError> {
    match body {
        Body::Basic(block) => {
            let mut names = Vec::new(alloc);
            for name in block.face.outputs.keys() {
                names.push(name.clone()?)?;
            }
            Ok(names)
        }
        Body::Served(service) => service.outputs(alloc),
    }
}

// What comes to a leaf from outside.
fn arrival(body: &Body) -> Option<&'static str> {
    match body {
        Body::Basic(_) => None,
        Body::Served(service) => service.arrival(),
    }
}

// Draws a rule above so many rows, if there are some.
fn draw_rule(rows: usize, depth: usize, writing: &mut Writing) {
    if rows == 0 {
        return;
    }
    line(depth, "<HR/>", writing);
}

// Draws the rows of events.
fn draw_events(
    sheet: &Sheet<'_>,
    leaf: &Leaf,
    depth: usize,
    writing: &mut Writing,
) -> Result<(), AllocError> {
    let names = event_inputs(sheet.alloc, &leaf.body)?;
    let rows = names.len().max(leaf.outputs.len());
    draw_rule(rows, depth, writing);
    for index in 0..rows {
        indent(depth, writing);
        writing.put("<TR>");
        draw_event_input(
            sheet,
            leaf.path.as_str(),
            names.get(index).copied(),
            writing,
        )?;
        draw_event_output(leaf.outputs.get(index), writing);
        writing.put("</TR>\n");
    }
    Ok(())
}

// Draws the row of what comes from outside.
fn draw_outside(
    sheet: &Sheet<'_>,
    leaf: &Leaf,
    depth: usize,
    writing: &mut Writing,
) -> Result<(), AllocError> {
    match arrival(&leaf.body) {
        Some(event) => {
            if sheet.picture.certificate.is_none() {
                return Ok(());
            }
            indent(depth, writing);
            writing.put("<TR>");
            draw_arrival(sheet, leaf.path.as_str(), event, writing)?;
            writing.put("</TR>\n");
            Ok(())
        }
        None => Ok(()),
    }
}

// Draws the rows of data.
fn draw_data(
    sheet: &Sheet<'_>,
    leaf: &Leaf,
    depth: usize,
    writing: &mut Writing,
) -> Result<(), AllocError> {
    let names = outputs(sheet.alloc, &leaf.body)?;
    let rows = leaf.inputs.len().max(names.len());
    draw_rule(rows, depth, writing);
    for index in 0..rows {
        indent(depth, writing);
        writing.put("<TR>");
        draw_input(&leaf.body, leaf.inputs.get(index), writing);
        draw_output(sheet, leaf, names.get(index), writing)?;
        writing.put("</TR>\n");
    }
    Ok(())
}

// Draws the table of a leaf.
fn draw_table(
    sheet: &Sheet<'_>,
    leaf: &Leaf,
    depth: usize,
    writing: &mut Writing,
) -> Result<(), AllocError> {
    let border = if comes_to(sheet.picture.walk, leaf.path.as_str()) {
        "<TABLE BORDER=\"2\" COLOR=\"red\""
    } else {
        "<TABLE BORDER=\"1\""
    };
    let rows = depth.saturating_add(1);
    indent(depth, writing);
    writing.put(border);
    writing.put(" CELLBORDER=\"0\" CELLSPACING=\"0\" CELLPADDING=\"3\">\n");
    draw_head(sheet, leaf, rows, writing);
    draw_events(sheet, leaf, rows, writing)?;
    draw_outside(sheet, leaf, rows, writing)?;
    draw_data(sheet, leaf, rows, writing)?;
    line(depth, "</TABLE>", writing);
    Ok(())
}

/// Draws a leaf as a node.
pub fn draw_leaf(sheet: &Sheet<'_>, leaf: &Leaf, writing: &mut Writing) -> Result<(), AllocError> {
    let path = leaf.path.as_str();
    let Some(number) = sheet.numbers.get(path).copied() else {
        return Ok(());
    };
    let depth = if sheet.picture.boxes {
        depth_of(path)
    } else {
        3
    };
    indent(depth, writing);
    writing.put("n");
    writing.show(&number);
    writing.put(" [label=<\n");
    draw_table(sheet, leaf, depth.saturating_add(1), writing)?;
    line(depth, ">];", writing);
    Ok(())
}
