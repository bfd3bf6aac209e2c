//! Colour for people at a terminal. It is tested, and no contract says it.

use std::io;
use std::io::Write;

// The number of the colour that a line has, none where it has none: what is accepted is green and what is refused red, marks are green, and notes are blue.
fn colour_of(line: &str) -> &'static str {
    if line == "accepted" || line.trim() == "^" {
        "32"
    } else if line.starts_with("refused ") || line.starts_with("fbr: ") {
        "31"
    } else if line.contains(": note: ") {
        "36"
    } else {
        ""
    }
}

// Writes a text.
fn put<W: Write>(text: &str, output: &mut W) -> io::Result<()> {
    output.write_all(text.as_bytes())
}

// Writes a line in its colour.
fn paint_line<W: Write>(line: &str, output: &mut W) -> io::Result<()> {
    let colour = colour_of(line);
    if colour.is_empty() {
        put(line, output)?;
        return put("\n", output);
    }
    put("\u{1b}[", output)?;
    put(colour, output)?;
    put("m", output)?;
    put(line, output)?;
    put("\u{1b}[0m\n", output)
}

/// Writes what was told to people, each line in its colour.
pub fn paint<W: Write>(told: &[u8], output: &mut W) -> io::Result<()> {
    match str::from_utf8(told) {
        Ok(text) => {
            for line in text.lines() {
                paint_line(line, output)?;
            }
            Ok(())
        }
        Err(_) => output.write_all(told),
    }
}
