//! Reads whole stories.

use crate::expectation::read_expected;
use crate::reading::Reader;
use crate::stimulus::read_stimulus;
use crate::story::{Action, Fate, Sequence, Span, Step};
use fb_lex::Token;
use fb_words::Mark;
use fbr_alone::Subject;
use fbr_names::{Fault, Names, unknown};
use std::alloc::Global;

// The fate of the next datagram, if a step says one.
fn read_fate(reader: &mut Reader<'_>) -> Result<Option<Fate>, Fault> {
    let fate = if reader.take_word("LOSE") {
        Fate::Lost
    } else if reader.take_word("TWICE") {
        Fate::Doubled
    } else if reader.take_word("HOLD") {
        Fate::Held
    } else {
        return Ok(None);
    };
    reader.expect_word("NEXT")?;
    Ok(Some(fate))
}

// The device whose datagrams are lost, behind DROP.
fn read_silenced(reader: &mut Reader<'_>) -> Result<u16, Fault> {
    reader.expect_word("ALL")?;
    reader.expect_word("FROM")?;
    let at = reader.start();
    let name = reader.name("the name of a device")?;
    reader.names().device(reader.alloc, name, at)
}

// A line about datagrams is no step of a block type alone, which sends none.
fn refuse_datagrams(reader: &Reader<'_>, is_next: bool) -> Result<(), Fault> {
    match reader.names().block_type() {
        Some(name) if is_next => {
            let words = [name, " alone sends no datagrams"];
            Err(Fault::at(reader.alloc, reader.start(), &words))
        }
        _ => Ok(()),
    }
}

// What a step does that is no stimulus, if one stands next.
fn read_other<'a>(reader: &mut Reader<'a>) -> Result<Option<Action<'a>>, Fault> {
    let is_fate = reader.is_word("LOSE") || reader.is_word("TWICE") || reader.is_word("HOLD");
    refuse_datagrams(
        reader,
        is_fate || reader.is_word("DROP") || reader.is_word("HEAL"),
    )?;
    if let Some(fate) = read_fate(reader)? {
        return Ok(Some(Action::Next(fate)));
    }
    if reader.take_word("DROP") {
        return Ok(Some(Action::Silence(read_silenced(reader)?)));
    }
    if reader.take_word("HEAL") {
        return Ok(Some(Action::Heal));
    }
    if reader.take_word("EXPECT") {
        return Ok(Some(Action::Expect(read_expected(reader)?)));
    }
    Ok(None)
}

// The step that is to stand next.
fn read_step<'a>(reader: &mut Reader<'a>) -> Result<Step<'a>, Fault> {
    let from = reader.start();
    let step = match read_other(reader)? {
        Some(action) => Step {
            said: reader.said(from),
            action,
        },
        None => {
            let stimulus = read_stimulus(reader)?;
            Step {
                said: stimulus.said,
                action: Action::Stimulus(stimulus),
            }
        }
    };
    reader.mark(Mark::Semicolon, "`;`")?;
    Ok(step)
}

// The name of a sequence.
fn read_sequence_name(reader: &mut Reader<'_>) -> Result<Span, Fault> {
    reader.expect_word("SEQUENCE")?;
    let from = reader.start();
    let _ = reader.name("the name of the sequence")?;
    Ok(reader.said(from))
}

// Which names a sequence has: behind FOR BLOCK those of a block type.
fn read_scope(reader: &mut Reader<'_>) -> Result<usize, Fault> {
    if !reader.take_mark(Mark::For) {
        return Ok(0);
    }
    reader.expect_word("BLOCK")?;
    let at = reader.start();
    let name = reader.name("the name of a block type")?;
    for (scope, names) in reader.all.iter().enumerate() {
        if let Some(block_type) = names.block_type() {
            if block_type == name {
                return Ok(scope);
            }
        }
    }
    let words = ["there is no block type ", name];
    Err(Fault::at(reader.alloc, at, &words))
}

// The sequence that is to stand next.
fn read_sequence<'a>(reader: &mut Reader<'a>) -> Result<Sequence<'a>, Fault> {
    let from = reader.start();
    let name = read_sequence_name(reader)?;
    let scope = read_scope(reader)?;
    let said = reader.said(from);
    reader.scope = scope;
    let mut steps = Vec::new(reader.alloc);
    for _ in 0..reader.tokens.len() {
        let is_over = reader.is_word("END_SEQUENCE") || reader.is_word("SEQUENCE");
        if is_over || reader.peek(0).is_none() {
            break;
        }
        steps.push(read_step(reader)?)?;
    }
    reader.expect_word("END_SEQUENCE")?;
    Ok(Sequence {
        said,
        name,
        scope,
        steps,
    })
}

/// That a text declares no block type of a name: the fault, with the nearest name that it has.
pub fn unknown_block(alloc: Global, subject: Subject<'_>, names: &[String]) -> Fault {
    let words = ["there is no block type ", subject.name];
    unknown(alloc, subject.at, &words, names, subject.name)
}

/// The sequences of a story that has these tokens, in order. There is one at least. Its names are those of the system, and then those of each block type that
/// it plays alone.
pub fn read_story<'a>(
    alloc: Global,
    text: &'a str,
    tokens: &'a [Token],
    all: &'a [Names<'a>],
) -> Result<Vec<Sequence<'a>>, Fault> {
    let Some(first) = all.get(0) else {
        return Ok(Vec::new(alloc));
    };
    let mut reader = Reader {
        alloc,
        text,
        tokens,
        all,
        first,
        scope: 0,
        at: 0,
    };
    let mut sequences = Vec::new(alloc);
    sequences.push(read_sequence(&mut reader)?)?;
    for _ in 0..tokens.len() {
        if reader.peek(0).is_none() {
            break;
        }
        sequences.push(read_sequence(&mut reader)?)?;
    }
    Ok(sequences)
}
