//! Value Change Dumps: IEEE 1364-2005, 18.2, with string variables as GTKWave takes them.

use crate::value::{word, write_state};
use fb_words::ElemType;
use fbr_signals::{Owner, Shown, Signal, Signals};
use std::io;
use std::io::Write;

// How many characters identifiers are made of, from `!` to `~`.
const CHARACTERS: usize = 94;

// As many characters as an identifier never has.
const LONGEST: usize = 11;

// What every dump begins with.
const HEAD: &[u8] = b"$version fbr $end
$comment A millisecond of the device's clock has 1000 us: within it each dispatch, arrival and tick has one of its own. $end
$timescale 1 us $end
";

// Writes the identifier of a number: its digits, the lowest first.
fn write_identifier<W: Write>(number: usize, out: &mut W) -> io::Result<()> {
    let mut left = number;
    for _ in 0..LONGEST {
        let digit = u8::try_from(left % CHARACTERS).unwrap_or(0);
        out.write_all(&[digit.saturating_add(b'!')])?;
        left /= CHARACTERS;
        if left == 0 {
            break;
        }
        left = left.saturating_sub(1);
    }
    Ok(())
}

// The identifier of the name of a run is the first, and those of signals come behind it.
const SEQUENCE: usize = 0;

// The number of the identifier of the signal at a place.
fn number_of(place: usize) -> usize {
    place.saturating_add(1)
}

// Whether a path has this name at a place.
fn has_name(path: &str, place: usize, wanted: &str) -> bool {
    for (at, name) in path.split('.').enumerate() {
        if at == place {
            return name == wanted;
        }
    }
    false
}

// How many names of two paths are the same, from the first on.
fn count_shared(path: &str, other: &str) -> usize {
    let mut shared: usize = 0;
    for (place, name) in path.split('.').enumerate() {
        if !has_name(other, place, name) {
            return shared;
        }
        shared = shared.saturating_add(1);
    }
    shared
}

// How many names a path has.
fn count_names(path: &str) -> usize {
    let mut count: usize = 0;
    if !path.is_empty() {
        for _ in path.split('.') {
            count = count.saturating_add(1);
        }
    }
    count
}

// Closes the scopes of a path that are not those of the next one, and opens those of the next one.
fn write_scopes<W: Write>(path: &str, next: &str, out: &mut W) -> io::Result<()> {
    let shared = count_shared(path, next);
    for _ in shared..count_names(path) {
        out.write_all(b"$upscope $end\n")?;
    }
    if !next.is_empty() {
        for (place, name) in next.split('.').enumerate() {
            if place >= shared {
                writeln!(out, "$scope module {name} $end")?;
            }
        }
    }
    Ok(())
}

// What a signal is declared as: its sort and how many bits it has.
fn sort_of(shown: Shown<'_>) -> &'static str {
    match shown {
        Shown::State(_) => "string 1",
        Shown::Queue => "integer 32",
        Shown::Steps => "wire 64",
        Shown::Value(of_type) => match of_type {
            ElemType::Bool => "wire 1",
            ElemType::Sint | ElemType::Int | ElemType::Dint | ElemType::Usint | ElemType::Uint =>
                "integer 32",
            ElemType::Udint => "wire 32",
            ElemType::Lint | ElemType::Time => "wire 64",
        },
    }
}

// Writes the declaration of the signal at a place.
fn write_variable<W: Write>(signal: &Signal<'_>, place: usize, out: &mut W) -> io::Result<()> {
    let sort = sort_of(signal.shown);
    write!(out, "$var {sort} ")?;
    write_identifier(number_of(place), out)?;
    match signal.shown {
        Shown::Value(_) => {
            let variable = signal.variable.as_str();
            write!(out, " {variable}")?;
            // In brackets it would be a bit of a number.
            if let Some(index) = signal.index {
                write!(out, "({index})")?;
            }
        }
        shown => {
            let word = word(shown);
            write!(out, " {word}")?;
        }
    }
    out.write_all(b" $end\n")
}

// Writes the declarations of an owner's signals.
fn write_owner<W: Write>(signals: &Signals<'_>, owner: &Owner<'_>, out: &mut W) -> io::Result<()> {
    for place in owner.from..owner.to {
        if let Some(signal) = signals.all.get(place) {
            write_variable(signal, place, out)?;
        }
    }
    Ok(())
}

// The path of the owner at a place; nothing where there is none.
fn path_at<'x>(signals: &'x Signals<'_>, place: Option<usize>) -> &'x str {
    match place {
        Some(place) => match signals.owners.get(place) {
            Some(owner) => owner.path,
            None => "",
        },
        None => "",
    }
}

/// Writes the declarations of all signals, and, where runs have names, of a text that says which one runs.
pub(crate) fn write_declarations<W: Write>(
    signals: &Signals<'_>,
    has_sequences: bool,
    out: &mut W,
) -> io::Result<()> {
    out.write_all(HEAD)?;
    if has_sequences {
        out.write_all(b"$var string 1 ")?;
        write_identifier(SEQUENCE, out)?;
        out.write_all(b" sequence $end\n")?;
    }
    for (place, owner) in signals.owners.iter().enumerate() {
        write_scopes(path_at(signals, place.checked_sub(1)), owner.path, out)?;
        write_owner(signals, owner, out)?;
    }
    write_scopes(
        path_at(signals, signals.owners.len().checked_sub(1)),
        "",
        out,
    )?;
    out.write_all(b"$enddefinitions $end\n")
}

/// Writes a time in microseconds.
pub(crate) fn write_stamp<W: Write>(stamp: u64, out: &mut W) -> io::Result<()> {
    writeln!(out, "#{stamp}")
}

/// Writes which run is under way.
pub(crate) fn write_sequence<W: Write>(name: &str, out: &mut W) -> io::Result<()> {
    write!(out, "s{name} ")?;
    write_identifier(SEQUENCE, out)?;
    out.write_all(b"\n")
}

// Writes a number in two's complement: a negative one with all its bits, of which there are 32 or 64.
fn write_bits<W: Write>(value: i64, has_few: bool, out: &mut W) -> io::Result<()> {
    if has_few && value < 0 {
        if let Ok(low) = i32::try_from(value) {
            return write!(out, "b{low:b}");
        }
    }
    write!(out, "b{value:b}")
}

/// Writes the value of the signal at a place.
pub(crate) fn write_value<W: Write>(
    signal: &Signal<'_>,
    place: usize,
    value: i64,
    out: &mut W,
) -> io::Result<()> {
    match signal.shown {
        Shown::State(block) => {
            out.write_all(b"s")?;
            write_state(block, value, out)?;
            out.write_all(b" ")?;
        }
        Shown::Value(ElemType::Bool) => out.write_all(if value == 0 { b"0" } else { b"1" })?,
        Shown::Value(ElemType::Lint | ElemType::Time) => {
            write_bits(value, false, out)?;
            out.write_all(b" ")?;
        }
        _ => {
            write_bits(value, true, out)?;
            out.write_all(b" ")?;
        }
    }
    write_identifier(number_of(place), out)?;
    out.write_all(b"\n")
}
