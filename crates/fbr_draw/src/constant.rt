//! Types of data ports, and constants as the language writes them.

use fb_flat::Body;
use fb_words::ElemType;
use fbr_places::Writing;

/// The type of a data input of a leaf.
pub fn input_type(body: &Body, name: &str) -> Option<ElemType> {
    match body {
        Body::Basic(block) => Some(block.face.inputs.get(name)?.of_type),
        Body::Served(service) => service.input(name),
    }
}

/// The type of a data output of a leaf.
pub fn output_type(body: &Body, name: &str) -> Option<ElemType> {
    match body {
        Body::Basic(block) => Some(block.face.outputs.get(name)?.of_type),
        Body::Served(service) => service.output(name),
    }
}

/// Writes a type, small and grey, with what stands before it and behind it.
pub fn write_type(before: &str, of_type: Option<ElemType>, behind: &str, writing: &mut Writing) {
    let Some(of_type) = of_type else {
        return;
    };
    writing.put(before);
    writing.put("<FONT POINT-SIZE=\"8\" COLOR=\"gray40\">");
    writing.put(of_type.name());
    writing.put("</FONT>");
    writing.put(behind);
}

// Writes a TIME, in seconds where it is of whole ones.
fn write_time(milliseconds: i64, writing: &mut Writing) {
    let (count, unit) = if milliseconds % 1000 == 0 {
        (milliseconds / 1000, "s")
    } else {
        (milliseconds, "ms")
    };
    writing.put("T#");
    writing.show(&count);
    writing.put(unit);
}

/// Writes a constant of a type.
pub fn write_constant(of_type: Option<ElemType>, value: i64, writing: &mut Writing) {
    match of_type {
        Some(ElemType::Bool) => writing.put(if value == 0 { "FALSE" } else { "TRUE" }),
        Some(ElemType::Time) => write_time(value, writing),
        _ => writing.show(&value),
    }
}
