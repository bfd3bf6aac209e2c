//! Ports, as cells of tables.

use crate::constant::{input_type, output_type, write_constant, write_type};
use crate::joined::is_joined;
use crate::picture::Sheet;
use crate::walk::comes_to_event;
use fb_flat::{Body, Input, Leaf, Output, Source, joined};
use fbr_places::Writing;
use std::alloc::AllocError;

// Writes the weight of an event input or arrival, small and grey, where there is a certificate, and its FAR where that has one.
fn write_weight(
    sheet: &Sheet<'_>,
    leaf: &str,
    event: &str,
    writing: &mut Writing,
) -> Result<(), AllocError> {
    let Some(certificate) = sheet.picture.certificate else {
        return Ok(());
    };
    let path = joined(sheet.alloc, leaf, event)?;
    let Some(weight) = certificate.weight(path.as_str()) else {
        return Ok(());
    };
    writing.put(" <FONT POINT-SIZE=\"8\" COLOR=\"gray40\">");
    writing.show(&weight.steps);
    if weight.places > 0 {
        writing.put(" / ");
        writing.show(&weight.places);
    }
    if let Some(far) = certificate.far(path.as_str()) {
        writing.put(", far ");
        writing.show(&far);
    }
    writing.put("</FONT>");
    Ok(())
}

// Writes the name of a port, in grey if no connection leads to it or from it.
fn write_name(is_used: bool, name: &str, writing: &mut Writing) {
    if is_used {
        writing.put(name);
        return;
    }
    writing.put("<FONT COLOR=\"gray60\">");
    writing.put(name);
    writing.put("</FONT>");
}

// Writes an event input or arrival, in red if a walk comes to it, and its weight.
fn write_event(
    sheet: &Sheet<'_>,
    leaf: &str,
    event: &str,
    is_used: bool,
    writing: &mut Writing,
) -> Result<(), AllocError> {
    if comes_to_event(sheet.picture.walk, leaf, event) {
        writing.put("<FONT COLOR=\"red\">");
        writing.put(event);
        writing.put("</FONT>");
    } else {
        write_name(is_used, event, writing);
    }
    write_weight(sheet, leaf, event, writing)
}

// Draws a cell without a port.
fn draw_blank(writing: &mut Writing) {
    writing.put("<TD></TD>");
}

/// Draws an event input, if there is one.
pub fn draw_event_input(
    sheet: &Sheet<'_>,
    leaf: &str,
    event: Option<&str>,
    writing: &mut Writing,
) -> Result<(), AllocError> {
    match event {
        Some(event) => {
            writing.put("<TD PORT=\"i_");
            writing.put(event);
            writing.put("\" ALIGN=\"LEFT\">");
            let is_used = is_joined(sheet.alloc, sheet.joined, leaf, event)?;
            write_event(sheet, leaf, event, is_used, writing)?;
            writing.put("</TD>");
            Ok(())
        }
        None => {
            draw_blank(writing);
            Ok(())
        }
    }
}

/// Draws an arrival, which is no port.
pub fn draw_arrival(
    sheet: &Sheet<'_>,
    leaf: &str,
    event: &str,
    writing: &mut Writing,
) -> Result<(), AllocError> {
    writing.put("<TD COLSPAN=\"2\" ALIGN=\"LEFT\"><I>");
    write_event(sheet, leaf, event, true, writing)?;
    writing.put("</I></TD>");
    Ok(())
}

/// Draws an event output, if there is one.
pub fn draw_event_output(event: Option<&Output>, writing: &mut Writing) {
    match event {
        Some(event) => {
            let name = event.name.as_str();
            writing.put("<TD PORT=\"o_");
            writing.put(name);
            writing.put("\" ALIGN=\"RIGHT\">");
            write_name(!event.targets.is_empty(), name, writing);
            writing.put("</TD>");
        }
        None => draw_blank(writing),
    }
}

// The value of a data input, if that is a constant other than 0.
fn constant_of(source: &Source) -> Option<i64> {
    match source {
        Source::Number(0) | Source::Output(_, _) | Source::Zeros(_, _) => None,
        Source::Number(value) => Some(*value),
    }
}

// Writes a data input with its type, and its value if that is a constant other than 0.
fn write_input(body: &Body, input: &Input, writing: &mut Writing) {
    let name = input.name.as_str();
    let of_type = input_type(body, name);
    let constant = constant_of(&input.source);
    let is_led_to = matches!(input.source, Source::Output(_, _));
    write_name(is_led_to || constant.is_some(), name, writing);
    write_type(" ", of_type, "", writing);
    if let Some(value) = constant {
        writing.put(" = ");
        write_constant(of_type, value, writing);
    }
}

/// Draws a data input of a leaf, if there is one.
pub fn draw_input(body: &Body, input: Option<&Input>, writing: &mut Writing) {
    match input {
        Some(input) => {
            writing.put("<TD PORT=\"d_");
            writing.put(input.name.as_str());
            writing.put("\" ALIGN=\"LEFT\">");
            write_input(body, input, writing);
            writing.put("</TD>");
        }
        None => draw_blank(writing),
    }
}

/// Draws a data output of a leaf with its type, if there is one.
pub fn draw_output(
    sheet: &Sheet<'_>,
    leaf: &Leaf,
    name: Option<&String>,
    writing: &mut Writing,
) -> Result<(), AllocError> {
    match name {
        Some(name) => {
            writing.put("<TD PORT=\"r_");
            writing.put(name.as_str());
            writing.put("\" ALIGN=\"RIGHT\">");
            write_type("", output_type(&leaf.body, name), " ", writing);
            let path = leaf.path.as_str();
            let is_used = is_joined(sheet.alloc, sheet.joined, path, name)?;
            write_name(is_used, name, writing);
            writing.put("</TD>");
            Ok(())
        }
        None => {
            draw_blank(writing);
            Ok(())
        }
    }
}
