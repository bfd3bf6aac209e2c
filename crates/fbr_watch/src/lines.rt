//! Lines for people and programs.

use crate::value::{Change, write_spelled, write_state, write_variable};
use fbr_signals::Shown;
use std::io;
use std::io::Write;

/// Writes that a run of a name begins.
pub(crate) fn write_beginning<W: Write>(sequence: &str, out: &mut W) -> io::Result<()> {
    writeln!(out, "-- {sequence}")
}

// Writes what has changed, behind its name.
fn write_change<W: Write>(change: Change<'_, '_>, out: &mut W) -> io::Result<()> {
    let value = change.value;
    match change.signal.shown {
        Shown::State(block) => {
            out.write_all(b" IN ")?;
            write_state(block, value, out)
        }
        Shown::Value(of_type) => {
            write_variable(change.signal, out)?;
            out.write_all(b" = ")?;
            write_spelled(of_type, value, out)
        }
        Shown::Queue | Shown::Steps => write!(out, " QUEUE {value}"),
    }
}

/// Writes the line of a change at a moment, with the name of the device where there are several. Steps have no line.
pub(crate) fn write_line<W: Write>(
    change: Change<'_, '_>,
    now: u64,
    is_alone: bool,
    out: &mut W,
) -> io::Result<()> {
    if let Shown::Steps = change.signal.shown {
        return Ok(());
    }
    write!(out, "{now} ")?;
    if !is_alone {
        out.write_all(change.device.as_bytes())?;
        out.write_all(b".")?;
    }
    out.write_all(change.name.as_bytes())?;
    write_change(change, out)?;
    out.write_all(b"\n")
}
