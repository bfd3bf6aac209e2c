//! Tables of comma-separated values: RFC 4180, with lines that end as those of a text do.

use crate::value::{Change, word, write_cell, write_variable};
use fbr_signals::Shown;
use std::io;
use std::io::Write;

/// Writes the names of the columns. Where runs have names, these come first.
pub(crate) fn write_columns<W: Write>(has_sequences: bool, out: &mut W) -> io::Result<()> {
    if has_sequences {
        out.write_all(b"sequence,")?;
    }
    out.write_all(b"time,device,name,value\n")
}

/// Writes the row of a change at a moment. (Names and values of a system and names of sequences have no character for whose sake a field is quoted.)
pub(crate) fn write_row<W: Write>(
    change: Change<'_, '_>,
    now: u64,
    sequence: Option<&str>,
    out: &mut W,
) -> io::Result<()> {
    if let Some(name) = sequence {
        write!(out, "{name},")?;
    }
    let device = change.device;
    let name = change.name;
    write!(out, "{now},{device},{name}")?;
    match change.signal.shown {
        Shown::Value(_) => write_variable(change.signal, out)?,
        shown => {
            let word = word(shown);
            write!(out, ".{word}")?;
        }
    }
    out.write_all(b",")?;
    write_cell(change.signal.shown, change.value, out)?;
    out.write_all(b"\n")
}
