//! What is asked to be watched of a run.

use crate::watcher::Form;
use crate::watching::{Kept, Watching};
use fb_flat::Flat;
use fbr_signals::{Signals, Unwatched, find_signals, find_signals_of};
use std::alloc::{AllocError, Global};
use std::io;

/// The paths whose changes are told in lines, and what is kept of a run: a table, a value change dump and a timeline, which are of these paths, or of all where
/// there are none.
#[derive(Clone, Copy)]
pub struct Wish<'b, 'p> {
    pub paths: &'b [&'p str],
    /// Whether the lines are for programs.
    pub is_json: bool,
    pub has_table: bool,
    pub has_dump: bool,
    pub has_timeline: bool,
}

// What is written into memory, where that is asked for.
fn sink(alloc: Global, is_asked: bool) -> Option<Vec<u8>> {
    if is_asked {
        Some(Vec::new(alloc))
    } else {
        None
    }
}

// What was written, or nothing.
fn taken(alloc: Global, sink: Option<Vec<u8>>) -> Vec<u8> {
    match sink {
        Some(bytes) => bytes,
        None => Vec::new(alloc),
    }
}

// The signals that paths name, of all devices or of the one of a number.
fn signals_at<'a>(
    alloc: Global,
    flat: &'a Flat,
    only: Option<u16>,
    paths: &[&str],
) -> Result<Signals<'a>, Unwatched> {
    match only {
        Some(number) => find_signals_of(alloc, flat, number, paths),
        None => find_signals(alloc, flat, paths),
    }
}

impl Wish<'_, '_> {
    // Whether something is kept.
    fn keeps(self) -> bool {
        self.has_table || self.has_dump || self.has_timeline
    }

    // The form of the lines, where there are some.
    fn lines(self) -> Option<Form> {
        if self.paths.is_empty() {
            None
        } else if self.is_json {
            Some(Form::Objects)
        } else {
            Some(Form::Lines)
        }
    }

    /// The signals that are watched, of all devices or of the one of a number.
    pub fn signals<'a>(
        self,
        alloc: Global,
        flat: &'a Flat,
        only: Option<u16>,
    ) -> Result<Signals<'a>, Unwatched> {
        if self.paths.is_empty() && self.keeps() {
            signals_at(alloc, flat, only, &["*"])
        } else {
            signals_at(alloc, flat, only, self.paths)
        }
    }

    /// What watches these signals.
    pub fn watching<'s, 'a>(
        self,
        alloc: Global,
        signals: &'s Signals<'a>,
    ) -> Result<Watching<'s, 'a, Vec<u8>>, AllocError> {
        let sinks = Kept {
            table: sink(alloc, self.has_table),
            dump: sink(alloc, self.has_dump),
            timeline: sink(alloc, self.has_timeline),
        };
        Watching::new(alloc, signals, self.lines(), sinks)
    }
}

/// What was kept of a run. What is not asked for is empty.
#[derive(Drop)]
pub struct Seen {
    /// As comma-separated values.
    pub table: Vec<u8>,
    /// As a value change dump.
    pub dump: Vec<u8>,
    /// As SVG.
    pub timeline: Vec<u8>,
}

impl Seen {
    /// Nothing was kept.
    pub fn nothing(alloc: Global) -> Seen {
        Seen {
            table: Vec::new(alloc),
            dump: Vec::new(alloc),
            timeline: Vec::new(alloc),
        }
    }

    /// What was kept behind the end of all runs; or an error where a write has failed.
    pub fn of(alloc: Global, watching: Watching<'_, '_, Vec<u8>>) -> io::Result<Seen> {
        let Kept {
            table,
            dump,
            timeline,
        } = watching.end()?;
        Ok(Seen {
            table: taken(alloc, table),
            dump: taken(alloc, dump),
            timeline: taken(alloc, timeline),
        })
    }
}
