//! Values of signals, and names of what has them.

use fb_types_blocks::Block;
use fb_words::ElemType;
use fbr_signals::{Shown, Signal};
use std::io;
use std::io::Write;

/// A signal that has changed: the name of its device, the shortest name of its owner within that, and its value.
#[derive(Clone, Copy)]
pub(crate) struct Change<'x, 'a> {
    pub(crate) device: &'x str,
    pub(crate) name: &'x str,
    pub(crate) signal: &'x Signal<'a>,
    pub(crate) value: i64,
}

/// Writes the name of the state of a number.
pub(crate) fn write_state<W: Write>(block: &Block, value: i64, out: &mut W) -> io::Result<()> {
    let Ok(place) = usize::try_from(value) else {
        return Ok(());
    };
    match block.states.get_index(place) {
        Some((name, _)) => out.write_all(name.as_bytes()),
        None => Ok(()),
    }
}

/// Writes a value as the language spells it.
pub(crate) fn write_spelled<W: Write>(
    of_type: ElemType,
    value: i64,
    out: &mut W,
) -> io::Result<()> {
    match of_type {
        ElemType::Bool => out.write_all(if value == 0 { b"FALSE" } else { b"TRUE" }),
        ElemType::Time => write!(out, "T#{value}ms"),
        _ => write!(out, "{value}"),
    }
}

/// Writes a value for a table: a TIME as a number of milliseconds, others as the language spells them.
pub(crate) fn write_cell<W: Write>(shown: Shown<'_>, value: i64, out: &mut W) -> io::Result<()> {
    match shown {
        Shown::State(block) => write_state(block, value, out),
        Shown::Value(ElemType::Bool) => write_spelled(ElemType::Bool, value, out),
        _ => write!(out, "{value}"),
    }
}

/// Writes the name of a variable, behind a dot, and the index of an element.
pub(crate) fn write_variable<W: Write>(signal: &Signal<'_>, out: &mut W) -> io::Result<()> {
    let variable = signal.variable.as_str();
    match signal.index {
        Some(index) => write!(out, ".{variable}[{index}]"),
        None => write!(out, ".{variable}"),
    }
}

/// The word for what is no variable. No variable is called so: the names of these have no small letters.
pub(crate) fn word(shown: Shown<'_>) -> &'static str {
    match shown {
        Shown::State(_) => "state",
        Shown::Queue => "queue",
        Shown::Steps => "steps",
        Shown::Value(_) => "value",
    }
}
