//! What a diagnosis is.

use crate::meaning::Meaning;
use crate::reading::Reading;
use fbr_faults::Fault;
use fbr_needs::{Counts, Flood, Missing, Queue, RangeLink, RangeStart, Step, Sum};
use fbr_places::{Located, Named};
use std::alloc::Global;

/// Two texts that a diagnosis is of: an application, and a certificate; and whether the finder is asked for numbers and narrower ranges too.
#[derive(Clone, Copy)]
pub struct Asked<'a> {
    pub alloc: Global,
    pub app: Named<'a>,
    pub cert: Named<'a>,
    pub is_searched: bool,
}

/// What is said of a place of a text.
#[derive(Drop)]
pub struct Advised {
    /// What was found, and what could stand there: a sentence a line.
    pub said: String,
    /// What to do about this mistake; empty where no more is known than its number says.
    pub remedy: String,
    /// Whether the first sentence says it already.
    pub is_plain: bool,
}

/// What is needed at a place, and what is there.
#[derive(Drop)]
pub enum Finding<'a> {
    /// Nothing more than the number says.
    Nothing,
    /// What is said of a place of a text.
    Advice(Advised),
    /// The text of a certificate is that of an application.
    Swapped,
    /// A statement or an operation.
    Wrong(Fault),
    /// A row that says less than it needs.
    Sum(Sum<'a>),
    /// A queue that is not deep enough.
    Queue(Queue<'a>),
    /// A row RANGE beside what its variable begins with.
    Start(RangeStart<'a>),
    /// A row RANGE beside what is connected to its input.
    Link(RangeLink<'a>),
    /// A row that is missing.
    Missing(Missing<'a>),
    /// An arrival that becomes more events than a queue can hold.
    Flood(Flood),
    /// Places of which each triggers the next.
    Walk(Vec<Step<'a>>),
}

/// What is at fault, and what to do.
#[derive(Drop)]
pub struct Diagnosis<'a> {
    /// The number of the refusal.
    pub code: u8,
    /// Where it stands, if that is in a text.
    pub place: Option<Located<'a>>,
    pub finding: Finding<'a>,
    /// How many rows are missing and how many too many, where these are more than one.
    pub counts: Option<Counts>,
    /// What the number says, and what to do.
    pub meaning: Option<Meaning>,
    /// Whether there is a certificate with narrower ranges, where these were looked for.
    pub is_narrower: Option<bool>,
    /// What it was made of.
    pub reading: &'a Reading,
}

impl<'a> Diagnosis<'a> {
    /// The places of a walk, if it is one.
    pub fn walk(&self) -> &[Step<'a>] {
        match &self.finding {
            Finding::Walk(steps) => steps.as_slice(),
            _ => &[],
        }
    }

    /// What to do: about this mistake, or else what its number says; empty where there is nothing.
    pub fn remedy(&self) -> &str {
        match (&self.finding, self.meaning) {
            (Finding::Advice(advised), _) if !advised.remedy.is_empty() => advised.remedy.as_str(),
            (_, Some(meaning)) => meaning.remedy,
            _ => "",
        }
    }
}
