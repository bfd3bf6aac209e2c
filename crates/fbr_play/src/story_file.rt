//! Plays the story of a file.

use crate::blocks::Blocks;
use crate::notes::Notes;
use fb_faults::TextFault;
use fb_lex::{Token, lex};
use fb_verified::Verified;
use fbr_alone::subjects_in;
use fbr_course::{Case, Failure, Telling, play_sequence};
use fbr_names::{Fault, Names};
use fbr_places::{Named, Spot, Writing, tell_where};
use fbr_score::Score;
use fbr_story::{Sequence, Span, read_story};
use fbr_watch::Watching;
use std::alloc::{AllocError, Global};
use std::io;
use std::io::Write;
use std::rc::Rc;

/// What stories are played on: what was verified, and the text of its application.
#[derive(Clone, Copy)]
pub(crate) struct Stage<'s> {
    pub(crate) alloc: Global,
    pub(crate) verified: &'s Rc<Verified>,
    pub(crate) app: &'s str,
}

/// Why a story is not played.
#[derive(Clone, Copy)]
pub(crate) enum Unplayed {
    /// Memory ran out.
    Memory,
    /// The line of this number, counted from 1, is at fault, of which people were told.
    Line(usize),
}

// The fault of a text that has no tokens.
fn text_fault(alloc: Global, fault: TextFault) -> Fault {
    match fault {
        TextFault::OutOfMemory => Fault::Memory,
        TextFault::BadCharacter(at) => {
            let words = ["no word or sign begins here, or the comment is not closed"];
            Fault::at(alloc, at, &words)
        }
        TextFault::BigNumber(at) => Fault::at(alloc, at, &["this number is too big"]),
        TextFault::TooLong => Fault::at(alloc, 0, &["a story has at most 1048576 bytes"]),
        TextFault::Syntax(at) | TextFault::TooDeep(at) => {
            Fault::at(alloc, at, &["this cannot be here"])
        }
    }
}

// The number of the line of a byte.
fn line_of(story: &str, at: usize) -> usize {
    match Spot::of_byte(story, at) {
        Some(spot) => spot.line,
        None => 1,
    }
}

// Tells people what is at fault in a story.
fn refuse<E: Write>(alloc: Global, fault: Fault, file: Named<'_>, errors: &mut E) -> Unplayed {
    match fault {
        Fault::Memory => Unplayed::Memory,
        Fault::At(at, text) => {
            let mut writing = Writing::new(alloc);
            writing.put("fbr: ");
            tell_where(file, at, &mut writing);
            writing.put(": ");
            match writing.end() {
                Ok(place) => {
                    let _ = errors.write_all(&place);
                    let _ = errors.write_all(&text);
                    let _ = errors.write_all(b"\n");
                    Unplayed::Line(line_of(file.text, at))
                }
                Err(_) => Unplayed::Memory,
            }
        }
    }
}

// A story as it was read, and what it is played on.
#[derive(Clone, Copy)]
struct Cast<'s, 'n> {
    stage: Stage<'s>,
    blocks: &'s Blocks,
    file: Named<'s>,
    tokens: &'s [Token],
    names: &'n [Names<'s>],
}

impl<'s> Cast<'s, '_> {
    // Plays a sequence on the system, or on its block type alone. Gives the step that failed, if one did.
    fn play<W: Write>(
        &self,
        sequence: &Sequence<'_>,
        notes: &mut Notes<'_, '_>,
        output: &mut W,
    ) -> Result<Option<Failure>, AllocError> {
        let Some(names) = self.names.get(sequence.scope) else {
            return Ok(None);
        };
        let telling = Telling {
            text: self.file.text,
            tokens: self.tokens,
            names,
        };
        let alloc = self.stage.alloc;
        match self.blocks.get(sequence.scope) {
            Some(verified) => {
                // What is watched is of the system, and not of a block type alone.
                let mut unwatched: Watching<'_, '_, Vec<u8>> = Watching::nothing();
                play_sequence(alloc, verified, &telling, sequence, &mut unwatched, output)
            }
            None => {
                let watching = &mut notes.watching;
                play_sequence(
                    alloc,
                    self.stage.verified,
                    &telling,
                    sequence,
                    watching,
                    output,
                )
            }
        }
    }

    // The name of a sequence.
    fn name_of(&self, sequence: &Sequence<'_>) -> &'s str {
        let Span { from, to } = sequence.name;
        let text: &'s str = self.file.text;
        text.get(from..to).unwrap_or("")
    }

    // Reads the story, and plays it.
    fn read<W: Write, E: Write>(
        &self,
        notes: &mut Notes<'_, '_>,
        output: &mut W,
        errors: &mut E,
    ) -> io::Result<Result<Score, Unplayed>> {
        match read_story(self.stage.alloc, self.file.text, self.tokens, self.names) {
            Ok(sequences) => self.play_all(&sequences, notes, output),
            Err(fault) => Ok(Err(refuse(self.stage.alloc, fault, self.file, errors))),
        }
    }

    // Plays the sequences of the story.
    fn play_all<W: Write>(
        &self,
        sequences: &[Sequence<'_>],
        notes: &mut Notes<'_, '_>,
        output: &mut W,
    ) -> io::Result<Result<Score, Unplayed>> {
        let mut score = Score::none();
        for sequence in sequences {
            let Ok(failure) = self.play(sequence, notes, output) else {
                return Ok(Err(Unplayed::Memory));
            };
            let case = Case {
                file: self.file.name,
                name: self.name_of(sequence),
            };
            notes.add(case, failure.as_ref(), output)?;
            score = score.after(failure.is_some());
        }
        match notes.report.end_story(self.file.name, score) {
            Ok(()) => Ok(Ok(score)),
            Err(_) => Ok(Err(Unplayed::Memory)),
        }
    }
}

// Plays a story of these tokens on a system and on block types.
fn play_on<W: Write, E: Write>(
    stage: Stage<'_>,
    blocks: &Blocks,
    story: (Named<'_>, &[Token]),
    notes: &mut Notes<'_, '_>,
    output: &mut W,
    errors: &mut E,
) -> io::Result<Result<Score, Unplayed>> {
    let (file, tokens) = story;
    let Ok(names) = blocks.names(stage.alloc, stage.verified) else {
        return Ok(Err(Unplayed::Memory));
    };
    let cast = Cast {
        stage,
        blocks,
        file,
        tokens,
        names: &names,
    };
    cast.read(notes, output, errors)
}

// The block types that a story of these tokens plays alone.
fn blocks_of(stage: Stage<'_>, tokens: &[Token]) -> Result<Blocks, Fault> {
    let subjects = subjects_in(stage.alloc, tokens)?;
    Blocks::of(stage.alloc, stage.app, &subjects)
}

// Finds the block types that a story plays alone, and plays it.
fn play_tokens<W: Write, E: Write>(
    stage: Stage<'_>,
    file: Named<'_>,
    tokens: &[Token],
    notes: &mut Notes<'_, '_>,
    output: &mut W,
    errors: &mut E,
) -> io::Result<Result<Score, Unplayed>> {
    match blocks_of(stage, tokens) {
        Ok(blocks) => {
            let played = play_on(stage, &blocks, (file, tokens), notes, output, errors);
            blocks.let_go();
            played
        }
        Err(fault) => Ok(Err(refuse(stage.alloc, fault, file, errors))),
    }
}

/// Plays the sequences of the story that a file holds, each on a fresh world of what was verified, or of a block type alone. The whole story is read first:
/// where a line is at fault people are told of it on `errors`, and nothing is played. Each sequence that fails is told on `output`, by its first step that
/// failed.
pub(crate) fn play_story<W: Write, E: Write>(
    stage: Stage<'_>,
    file: Named<'_>,
    notes: &mut Notes<'_, '_>,
    output: &mut W,
    errors: &mut E,
) -> io::Result<Result<Score, Unplayed>> {
    let alloc = stage.alloc;
    match lex(alloc, file.text) {
        Ok(tokens) => play_tokens(stage, file, &tokens, notes, output, errors),
        Err(fault) => Ok(Err(refuse(alloc, text_fault(alloc, fault), file, errors))),
    }
}
