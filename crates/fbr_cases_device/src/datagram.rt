//! What bytes spell.

use fb_wire::{Message, Purpose, Stamp, Typed, decode, encode};
use fbr_cases_language::{Case, refused};
use std::alloc::{AllocError, Global};
use std::fmt::Write;

// What a message is for.
fn purpose(message: &Message) -> &'static str {
    match message.purpose() {
        Purpose::ToChannel => "channel",
        Purpose::ToInput => "input",
    }
}

// Adds a stamp, if there is one.
fn stamped(out: &mut String, stamp: Option<Stamp>) -> Result<(), AllocError> {
    match stamp {
        Some(stamp) => {
            let boot = stamp.boot;
            let sequence = stamp.sequence;
            write!(out, " boot {boot} sequence {sequence}")
        }
        None => Ok(()),
    }
}

// Adds values with their types.
fn valued(out: &mut String, values: &[Typed]) -> Result<(), AllocError> {
    for typed in values {
        write!(out, " {} {}", typed.elem.name(), typed.value)?;
    }
    Ok(())
}

// What a message is for, its number, its stamp, its values, and on a line of their own its bytes.
fn told(alloc: Global, message: &Message) -> Result<String, AllocError> {
    let name = purpose(message);
    let number = message.number();
    let mut out = format!(in alloc; "{name} {number}")?;
    stamped(&mut out, message.stamp())?;
    valued(&mut out, message.values())?;
    let bytes = encode(message);
    let digits = hex::encode_upper(alloc, bytes.as_slice())?;
    out.push('\n')?;
    out.push_str(digits.as_str())?;
    Ok(out)
}

/// The message that the bytes of a case spell, and how it is spelled; or what is at fault with the bytes. The section `bytes` has two digits for each.
pub fn datagrams(alloc: Global, case: &Case<'_>) -> Result<String, AllocError> {
    let digits = case.text("bytes").trim().replace(alloc, " ", "")?;
    let Ok(bytes) = hex::decode(alloc, digits.as_str()) else {
        return String::from_str(alloc, "no bytes");
    };
    match decode(bytes.as_slice()) {
        Ok(message) => told(alloc, &message),
        Err(fault) => refused(alloc, &fault),
    }
}
