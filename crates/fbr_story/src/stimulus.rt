//! Reads stimuli, and what they are to make the outside see.

use crate::arguments::{all_of, read_arguments};
use crate::reading::Reader;
use crate::story::{Arrival, Cause, Stimulus, Wanted, WantedWrite};
use crate::values::{read_value, read_values};
use fb_lex::Kind;
use fb_words::{ElemType, Mark};
use fbr_alone::Alone;
use fbr_names::{Fault, Sort, find_event};
use std::alloc::Global;

// An instance of a sort with its values in brackets: the numbers of its device and of itself, and the values.
fn read_port(reader: &mut Reader<'_>, sort: Sort, may_be_any: bool) -> Result<WantedWrite, Fault> {
    let at = reader.start();
    let what = match sort {
        Sort::Input => "the name of an INPUT",
        _ => "the name of an OUTPUT",
    };
    let name = reader.path(what)?;
    let place = reader
        .names()
        .resolve(reader.alloc, sort, name.as_str(), at)?;
    let Some((number, types)) = place.port() else {
        return Err(reader.expected(what));
    };
    let values = read_values(reader, name.as_str(), types, may_be_any)?;
    Ok(WantedWrite {
        device: place.device,
        output: number,
        values,
    })
}

// Values at an INPUT.
fn read_input(reader: &mut Reader<'_>, arrivals: &mut Vec<Arrival>) -> Result<(), Fault> {
    let port = read_port(reader, Sort::Input, false)?;
    arrivals.push(Arrival {
        device: port.device,
        input: port.output,
        values: all_of(reader.alloc, &port.values)?,
    })?;
    Ok(())
}

// The value that is held for an event comes.
fn hold(alloc: Global, input: u16, value: i64, arrivals: &mut Vec<Arrival>) -> Result<(), Fault> {
    let mut values = Vec::new(alloc);
    values.push(value)?;
    arrivals.push(Arrival {
        device: 0,
        input,
        values,
    })?;
    Ok(())
}

// An event of a block type alone, behind the values that are held for it. Answers how many these are.
fn read_event(
    reader: &mut Reader<'_>,
    around: &Alone,
    arrivals: &mut Vec<Arrival>,
) -> Result<u64, Fault> {
    let at = reader.start();
    let name = reader.name("the name of an event input")?;
    let event = find_event(reader.alloc, around, name, at)?;
    let given = read_arguments(reader, event)?;
    let mut held: u64 = 0;
    let mut values = Vec::new(reader.alloc);
    for (argument, value) in event.arguments.iter().zip(&given) {
        match argument.holder {
            Some(input) => {
                hold(reader.alloc, input, *value, arrivals)?;
                held = held.saturating_add(1);
            }
            None => values.push(*value)?,
        }
    }
    arrivals.push(Arrival {
        device: 0,
        input: event.input,
        values,
    })?;
    Ok(held)
}

// An arrival. Answers how many values are held for it.
fn read_arrival(reader: &mut Reader<'_>, arrivals: &mut Vec<Arrival>) -> Result<u64, Fault> {
    match reader.names().alone {
        Some(around) => read_event(reader, around, arrivals),
        None => {
            read_input(reader, arrivals)?;
            Ok(0)
        }
    }
}

// The span of time behind AFTER.
fn read_span(reader: &mut Reader<'_>) -> Result<u64, Fault> {
    let at = reader.start();
    let span = read_value(reader, ElemType::Time)?;
    match u64::try_from(span) {
        Ok(span) => Ok(span),
        Err(_) => Err(Fault::at(reader.alloc, at, &["time does not go back"])),
    }
}

// What comes from outside, and how many values are held for it.
fn read_cause(reader: &mut Reader<'_>) -> Result<(Cause, u64), Fault> {
    if reader.take_word("AFTER") {
        return Ok((Cause::Time(read_span(reader)?), 0));
    }
    let mut arrivals = Vec::new(reader.alloc);
    let is_together = reader.take_word("TOGETHER");
    let mut held = read_arrival(reader, &mut arrivals)?;
    for _ in 0..reader.tokens.len() {
        if !is_together || !reader.take_mark(Mark::Comma) {
            break;
        }
        held = held.saturating_add(read_arrival(reader, &mut arrivals)?);
    }
    Ok((Cause::Arrivals(arrivals), held))
}

// Whether denials have this number.
fn is_denial(code: u8) -> bool {
    matches!(code, 50..=58 | 64)
}

// The number of a denial, if one stands next.
fn read_denial(reader: &mut Reader<'_>) -> Result<Option<u8>, Fault> {
    let Some(token) = reader.peek(0) else {
        return Ok(None);
    };
    let Kind::Number(number) = &token.kind else {
        return Ok(None);
    };
    let code = u8::try_from(*number).unwrap_or(0);
    if is_denial(code) {
        reader.pass();
        return Ok(Some(code));
    }
    let words = ["denials have the numbers 50 to 58 and 64"];
    Err(Fault::at(reader.alloc, token.start, &words))
}

// One thing that the outside is to see.
fn read_seen(reader: &mut Reader<'_>, wanted: &mut Wanted) -> Result<(), Fault> {
    if reader.take_word("DENIED") {
        let denial = read_denial(reader)?;
        wanted.denials.push(denial)?;
    } else {
        let write = read_port(reader, Sort::Output, true)?;
        wanted.writes.push(write)?;
    }
    Ok(())
}

// All that the outside is to see, behind the first arrow.
fn read_all_seen(reader: &mut Reader<'_>, wanted: &mut Wanted) -> Result<(), Fault> {
    if reader.is_mark(Mark::Semicolon) || reader.is_word("STEPS") {
        return Ok(());
    }
    for _ in 0..reader.tokens.len() {
        if reader.take_mark(Mark::DotDot) {
            wanted.is_open = true;
            break;
        }
        read_seen(reader, wanted)?;
        if !reader.take_mark(Mark::Arrow) && !reader.is_mark(Mark::DotDot) {
            break;
        }
    }
    Ok(())
}

// What the outside is to see, if that is said.
fn read_wanted(reader: &mut Reader<'_>) -> Result<Option<Wanted>, Fault> {
    let from = reader.start();
    if !reader.take_mark(Mark::Arrow) {
        return Ok(None);
    }
    let mut wanted = Wanted {
        said: reader.said(from),
        writes: Vec::new(reader.alloc),
        denials: Vec::new(reader.alloc),
        is_open: false,
    };
    read_all_seen(reader, &mut wanted)?;
    wanted.said = reader.said(from);
    Ok(Some(wanted))
}

// The most steps that a stimulus may take, if that is said.
fn read_most(reader: &mut Reader<'_>) -> Result<Option<u64>, Fault> {
    if !reader.take_word("STEPS") {
        return Ok(None);
    }
    reader.mark(Mark::LessEqual, "`<=`")?;
    Ok(Some(reader.number()?))
}

/// The stimulus that is to stand next.
pub(crate) fn read_stimulus(reader: &mut Reader<'_>) -> Result<Stimulus, Fault> {
    let from = reader.start();
    let (cause, carrying) = read_cause(reader)?;
    let said = reader.said(from);
    let wanted = read_wanted(reader)?;
    let most = read_most(reader)?;
    Ok(Stimulus {
        said,
        cause,
        carrying,
        wanted,
        most,
    })
}
