//! Notes, each with its place.

use crate::known::Known;
use crate::quiet::{Quiet, is_listed};
use fb_lex::Token;
use fb_tree::BlockTree;
use fbr_places::{Named, Types, Writing};
use std::alloc::{AllocError, Global};

/// A text that is accepted, with its tokens, its tree, its block types by their names, and the notes that are silenced.
#[derive(Clone, Copy)]
pub struct Page<'a> {
    pub alloc: Global,
    pub app: Named<'a>,
    pub tokens: &'a [Token],
    pub types: Types<'a>,
    pub known: &'a Known,
    pub quiet: Quiet<'a>,
}

impl<'a> Page<'a> {
    /// The declaration of a block type that the text has.
    pub fn own(self, name: &str) -> Option<&'a BlockTree> {
        self.known.own(self.types, name)
    }

    /// The declaration of one that is there beforehand.
    pub fn given(self, name: &str) -> Option<&'a BlockTree> {
        self.known.given(self.types, name)
    }
}

/// What a note is of.
#[derive(Clone, Copy)]
pub enum NoteKind {
    NeverUsed,
    NeverRead,
    NeverWritten,
    TimeWithoutUnit,
    EventNeverEmitted,
    StateNeverEntered,
    AlgorithmNeverRun,
    InstanceNeverReached,
    EventLeadsNowhere,
    ValueNeverTaken,
    ValueNeverGiven,
    ArithmeticMayWrap,
    QiStaysFalse,
    ChannelNeverHeard,
    ChannelNeverSent,
    ChannelsComeBack,
    StateWithoutExit,
    EventNeverAwaited,
    TransitionNeverTaken,
    PeriodTooShort,
    GuardNeverHolds,
}

// The names of all of them, with commas between them.
const NAMES: &str =
    "never-used,never-read,never-written,time-without-unit,event-never-emitted,state-never-entered,algorithm-never-run,instance-never-reached,event-leads-nowhere,value-never-taken,value-never-given,arithmetic-may-wrap,qi-stays-false,channel-never-heard,channel-never-sent,channels-come-back,state-without-exit,event-never-awaited,transition-never-taken,period-too-short,guard-never-holds";

/// The first of these names, with commas between them, that no note has.
pub fn unknown_in(names: &str) -> Option<&str> {
    for name in names.split(',') {
        if !is_listed(NAMES, name.trim()) {
            return Some(name.trim());
        }
    }
    None
}

impl NoteKind {
    /// Its name, which stays the same.
    pub fn name(self) -> &'static str {
        match self {
            NoteKind::NeverUsed => "never-used",
            NoteKind::NeverRead => "never-read",
            NoteKind::NeverWritten => "never-written",
            NoteKind::TimeWithoutUnit => "time-without-unit",
            NoteKind::EventNeverEmitted => "event-never-emitted",
            NoteKind::StateNeverEntered => "state-never-entered",
            NoteKind::AlgorithmNeverRun => "algorithm-never-run",
            NoteKind::InstanceNeverReached => "instance-never-reached",
            NoteKind::EventLeadsNowhere => "event-leads-nowhere",
            NoteKind::ValueNeverTaken => "value-never-taken",
            NoteKind::ValueNeverGiven => "value-never-given",
            NoteKind::ArithmeticMayWrap => "arithmetic-may-wrap",
            NoteKind::QiStaysFalse => "qi-stays-false",
            NoteKind::ChannelNeverHeard => "channel-never-heard",
            NoteKind::ChannelNeverSent => "channel-never-sent",
            NoteKind::ChannelsComeBack => "channels-come-back",
            NoteKind::StateWithoutExit => "state-without-exit",
            NoteKind::EventNeverAwaited => "event-never-awaited",
            NoteKind::TransitionNeverTaken => "transition-never-taken",
            NoteKind::PeriodTooShort => "period-too-short",
            NoteKind::GuardNeverHolds => "guard-never-holds",
        }
    }
}

/// Notes on a text.
#[derive(Drop)]
pub struct Notes {
    /// What each is of, and the byte that it is on.
    pub places: Vec<(NoteKind, usize)>,
    /// What each says, a line each.
    pub said: String,
    /// At how many more places arithmetic may wrap.
    pub more: usize,
}

impl Notes {
    /// None.
    pub fn none(alloc: Global) -> Notes {
        Notes {
            places: Vec::new(alloc),
            said: String::new(alloc),
            more: 0,
        }
    }

    /// How many there are.
    pub fn count(&self) -> usize {
        self.places.len().saturating_add(self.more)
    }
}

/// Notes that are put together.
#[derive(Drop)]
pub struct Noting {
    places: Vec<(NoteKind, usize)>,
    said: Writing,
    is_whole: bool,
}

// A text that was written, if memory held it.
fn text_of(said: Writing) -> Result<String, AllocError> {
    match String::from_utf8(said.end()?) {
        Ok(said) => Ok(said),
        Err(_) => Err(AllocError),
    }
}

impl Noting {
    /// None so far.
    pub fn new(alloc: Global) -> Noting {
        Noting {
            places: Vec::new(alloc),
            said: Writing::new(alloc),
            is_whole: true,
        }
    }

    /// Begins a note of a kind on a byte.
    pub fn begin(&mut self, kind: NoteKind, at: usize) {
        if self.places.push((kind, at)).is_err() {
            self.is_whole = false;
        }
    }

    /// What the notes say, to go on with: each ends with its line.
    pub fn said(&mut self) -> &mut Writing {
        &mut self.said
    }

    /// Goes on with four texts, and ends the line.
    pub fn put(&mut self, one: &str, two: &str, three: &str, four: &str) {
        self.said.put(one);
        self.said.put(two);
        self.said.put(three);
        self.said.put(four);
        self.said.put("\n");
    }

    /// The notes that are not silenced, if memory held all of them, and how many more there are.
    pub fn end(self, page: Page<'_>, more: usize) -> Result<Notes, AllocError> {
        let Noting {
            places,
            said,
            is_whole,
        } = self;
        if !is_whole {
            return Err(AllocError);
        }
        let all = text_of(said)?;
        let mut told = Vec::new(page.alloc);
        let mut said = Writing::new(page.alloc);
        for ((kind, at), says) in places.iter().zip(all.lines()) {
            if !page.quiet.is_quiet(*kind, *at) {
                told.push((*kind, *at))?;
                said.put(says);
                said.put("\n");
            }
        }
        Ok(Notes {
            places: told,
            said: text_of(said)?,
            more,
        })
    }
}
