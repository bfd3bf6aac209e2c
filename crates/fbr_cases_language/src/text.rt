//! The texts of cases, and the form of answers.

use crate::case::Case;
use fbr_places::Writing;
use std::alloc::{AllocError, Global};
use std::fmt::{Display, Write};

// Adds a part, on a line of its own.
fn join(text: &mut String, part: &str) -> Result<(), AllocError> {
    if !text.is_empty() && !part.is_empty() {
        text.push('\n')?;
    }
    text.push_str(part)
}

// Adds a piece so many times. A `#` in it stands for how many pieces are before it.
fn repeat(alloc: Global, text: &mut String, piece: &str, times: u32) -> Result<(), AllocError> {
    match piece.split_once('#') {
        Some((front, back)) => {
            for number in 0..times {
                write!(text, "{front}{number}{back}")?;
            }
            Ok(())
        }
        None => {
            let many = piece.repeat(alloc, 4096)?;
            for _ in 0..times / 4096 {
                text.push_str(many.as_str())?;
            }
            text.push_str(piece.repeat(alloc, (times % 4096) as usize)?.as_str())
        }
    }
}

/// The text of a case: the sections `before`, `piece` as often as `times` says, `text` and `after`, where they are given.
pub fn text_of(alloc: Global, case: &Case<'_>) -> Result<String, AllocError> {
    let mut text = String::from_str(alloc, case.text("before"))?;
    let times = case.text("times").parse::<u32>().unwrap_or(0);
    repeat(alloc, &mut text, case.text("piece"), times)?;
    join(&mut text, case.text("text"))?;
    join(&mut text, case.text("after"))?;
    Ok(text)
}

/// An answer without the line feed at its end.
pub fn ended(mut out: String) -> String {
    if out.ends_with("\n") {
        let _ = out.pop();
    }
    out
}

/// An answer that was written, without the line feed at its end.
pub fn written(alloc: Global, out: Writing) -> Result<String, AllocError> {
    let bytes = out.end()?;
    Ok(ended(String::from_utf8_lossy(alloc, bytes.as_slice())?))
}

/// A refusal.
pub fn refused<F: Display>(alloc: Global, fault: &F) -> Result<String, AllocError> {
    format!(in alloc; "refused {fault}")
}
