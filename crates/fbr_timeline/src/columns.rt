//! Where the notes of a timeline stand: a column each, in rows, with the moments above them.

use crate::lane::Note;

// How wide a column is.
const COLUMN: u64 = 8;

// How wide all columns of a row are at most.
const ROW: u64 = 1000;

// The gap before what comes to idle resources.
const BREATH: u64 = 5;

// The gap between two moments.
const PAUSE: u64 = 10;

// How wide a digit of a moment is.
const DIGIT: u64 = 6;

// The gap after the digits of a moment.
const BEHIND: u64 = 8;

/// Where the next column of a row begins.
#[derive(Clone, Copy)]
pub(crate) struct Pen {
    at: u64,
    moment: Option<u64>,
    // Where the text of the last moment ends.
    told: u64,
}

/// The column of a note: where it begins, and whether a moment is told above it.
#[derive(Clone, Copy)]
pub(crate) struct Column {
    pub(crate) at: u64,
    pub(crate) is_told: bool,
}

// How wide the text of a moment is.
fn width_of(moment: u64) -> u64 {
    let mut width = DIGIT.saturating_add(BEHIND);
    let mut left = moment / 10;
    for _ in 0..20 {
        if left == 0 {
            break;
        }
        left /= 10;
        width = width.saturating_add(DIGIT);
    }
    width
}

impl Pen {
    /// The beginning of a row.
    pub(crate) fn new() -> Pen {
        Pen {
            at: 0,
            moment: None,
            told: 0,
        }
    }

    /// The next column is that of a note.
    pub(crate) fn place(&mut self, note: &Note) -> Column {
        let is_told = self.moment != Some(note.now);
        if is_told {
            if self.moment.is_some() {
                self.at = self.at.saturating_add(PAUSE).max(self.told);
            }
            self.moment = Some(note.now);
            self.told = self.at.saturating_add(width_of(note.now));
        } else if note.is_first {
            self.at = self.at.saturating_add(BREATH);
        }
        let at = self.at;
        self.at = at.saturating_add(COLUMN);
        Column { at, is_told }
    }

    /// Where the columns so far, and what is told above them, end.
    pub(crate) fn end(self) -> u64 {
        self.at.max(self.told)
    }

    /// Where the columns so far end.
    pub(crate) fn last(self) -> u64 {
        self.at
    }
}

/// The place behind the last note of the row that begins at a place. Each row has one note at least.
pub(crate) fn row_end(notes: &[Note], from: usize, to: usize) -> usize {
    let mut pen = Pen::new();
    for at in from..to {
        if let Some(note) = notes.get(at) {
            let _ = pen.place(note);
            if at > from && pen.end() > ROW {
                return at;
            }
        }
    }
    to
}

/// How many rows the notes from a place up to another have.
pub(crate) fn count_rows(notes: &[Note], from: usize, to: usize) -> u64 {
    let mut count: u64 = 0;
    let mut at = from;
    for _ in from..to {
        if at >= to {
            break;
        }
        at = row_end(notes, at, to);
        count = count.saturating_add(1);
    }
    count
}
