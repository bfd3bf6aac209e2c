//! Plays the stories of files, and tells how they went.

use crate::notes::Notes;
use crate::report::Report;
use crate::story_file::{Stage, Unplayed, play_story};
use fb_device::{release, share};
use fb_verified::Verified;
use fbr_files::{Fault, Sources, read_file};
use fbr_places::Named;
use fbr_score::Score;
use fbr_signals::Signals;
use fbr_watch::{Seen, Wish};
use std::alloc::Global;
use std::io;
use std::io::Write;

/// Stories by the names of their files, the text of the application that they are of, what is watched, whether there is to be a report, and for whom it is told.
#[derive(Clone, Copy)]
pub struct Stories<'t, 'b, 'a> {
    pub app: &'t str,
    pub names: &'b [&'a str],
    pub wish: Wish<'b, 'a>,
    pub has_report: bool,
    /// Whether programs are told how they went, and not people.
    pub is_json: bool,
}

/// How stories went: how many of their sequences passed and failed, or what refused one of them; and what was kept, which is empty where it is not asked for, and
/// where a story is refused.
#[derive(Drop)]
pub struct Played<'a> {
    pub outcome: Result<Score, Fault<'a>>,
    /// As JUnit XML.
    pub report: Vec<u8>,
    pub seen: Seen,
}

// What came of stories of which one is refused.
fn refused<'a>(alloc: Global, fault: Fault<'a>) -> Played<'a> {
    Played {
        outcome: Err(fault),
        report: Vec::new(alloc),
        seen: Seen::nothing(alloc),
    }
}

// Plays the story of a text, and of the name of its file.
fn play_text<'b, W: Write, E: Write>(
    stage: Stage<'_>,
    name: &'b str,
    text: &'b str,
    notes: &mut Notes<'_, '_>,
    output: &mut W,
    errors: &mut E,
) -> io::Result<Result<Score, Unplayed>> {
    let story = Named {
        name,
        text,
        meant: None,
    };
    play_story(stage, story, notes, output, errors)
}

// Plays the story that a file holds.
fn play_file<'a, S: Sources, W: Write, E: Write>(
    stage: Stage<'_>,
    name: &'a str,
    files: &S,
    notes: &mut Notes<'_, '_>,
    output: &mut W,
    errors: &mut E,
) -> io::Result<Result<Score, Fault<'a>>> {
    let file = read_file(stage.alloc, files, name);
    match file.text() {
        Ok(text) => {
            match play_text(stage, name, text, notes, output, errors)? {
                Ok(score) => Ok(Ok(score)),
                Err(Unplayed::Memory) => Ok(Err(Fault::Memory)),
                Err(Unplayed::Line(line)) => Ok(Err(Fault::Line(line))),
            }
        }
        Err(fault) => {
            let _ = writeln!(
                errors,
                "fbr: {name}: this story cannot be read: a story is a file in UTF-8 of at most 1048576 bytes"
            );
            Ok(Err(fault))
        }
    }
}

// Plays the stories that files hold, up to one that is at fault.
fn play_files<'a, S: Sources, W: Write, E: Write>(
    stage: Stage<'_>,
    stories: Stories<'_, '_, 'a>,
    files: &S,
    notes: &mut Notes<'_, '_>,
    output: &mut W,
    errors: &mut E,
) -> io::Result<Result<Score, Fault<'a>>> {
    let mut all = Score::none();
    for name in stories.names {
        match play_file(stage, *name, files, notes, output, errors)? {
            Ok(score) => all = all.with(score),
            Err(fault) => return Ok(Err(fault)),
        }
    }
    Ok(Ok(all))
}

// What is kept of stories that went so.
fn kept_of<'a>(
    alloc: Global,
    played: Result<Score, Fault<'a>>,
    notes: Notes<'_, '_>,
) -> io::Result<Played<'a>> {
    let Notes {
        report,
        watching,
        ..
    } = notes;
    let seen = Seen::of(alloc, watching)?;
    match played {
        Ok(score) => Ok(Played {
            outcome: Ok(score),
            report: report.end(score)?,
            seen,
        }),
        Err(fault) => Ok(refused(alloc, fault)),
    }
}

// Plays stories while signals are watched.
fn play_watched<'a, S: Sources, W: Write, E: Write>(
    stage: Stage<'_>,
    stories: Stories<'_, '_, 'a>,
    signals: &Signals<'_>,
    files: &S,
    output: &mut W,
    errors: &mut E,
) -> io::Result<Played<'a>> {
    let alloc = stage.alloc;
    let Ok(watching) = stories.wish.watching(alloc, signals) else {
        return Ok(refused(alloc, Fault::Memory));
    };
    let mut notes = Notes {
        alloc,
        is_json: stories.is_json,
        report: Report::new(alloc, stories.has_report),
        watching,
    };
    let played = play_files(stage, stories, files, &mut notes, output, errors)?;
    kept_of(alloc, played, notes)
}

// Plays stories on what they are played on.
fn play_on<'a, S: Sources, W: Write, E: Write>(
    stage: Stage<'_>,
    stories: Stories<'_, '_, 'a>,
    files: &S,
    output: &mut W,
    errors: &mut E,
) -> io::Result<Played<'a>> {
    let alloc = stage.alloc;
    match stories.wish.signals(alloc, stage.verified.flat(), None) {
        Ok(signals) => play_watched(stage, stories, &signals, files, output, errors),
        Err(unwatched) => Ok(refused(
            alloc,
            if unwatched.tell(errors) {
                Fault::Usage
            } else {
                Fault::Memory
            },
        )),
    }
}

/// Plays the stories that files hold over what was verified: what came otherwise than a sequence says is written, and what has changed where that is watched. A
/// story that cannot be read, or has a line that is at fault, is refused: people are told on `errors`, and no later story is played. Where a path names nothing,
/// people are told too, and nothing is played (`Usage`, 63). `print_end` tells how they went.
pub fn play_all<'a, S: Sources, W: Write, E: Write>(
    alloc: Global,
    verified: Verified,
    stories: Stories<'_, '_, 'a>,
    files: &S,
    output: &mut W,
    errors: &mut E,
) -> io::Result<Played<'a>> {
    match share(alloc, verified) {
        Ok(shared) => {
            let stage = Stage {
                alloc,
                verified: &shared,
                app: stories.app,
            };
            let played = play_on(stage, stories, files, output, errors);
            release(shared);
            played
        }
        Err(_) => Ok(refused(alloc, Fault::Memory)),
    }
}
