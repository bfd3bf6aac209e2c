//! Places of many bytes of one text: for none of them all is read that stands before it.

use fbr_places::{Located, Named, Spot};
use std::alloc::{AllocError, Global};

// So many bytes stand between two marks.
const STEP: usize = 256;

// A character of a text: its byte, the byte at which its line begins, its line, and its place there.
#[derive(Clone, Copy)]
struct Mark {
    byte: usize,
    begin: usize,
    line: usize,
    column: usize,
}

// The first character.
const FIRST: Mark = Mark {
    byte: 0,
    begin: 0,
    line: 1,
    column: 1,
};

impl Mark {
    // What stands behind this character, which begins at a byte.
    fn behind(self, at: usize, character: char) -> Mark {
        if character == '\n' {
            Mark {
                byte: at,
                begin: at.saturating_add(1),
                line: self.line.saturating_add(1),
                column: 1,
            }
        } else {
            Mark {
                byte: at,
                column: self.column.saturating_add(1),
                ..self
            }
        }
    }
}

// A file, and the byte and the line of the text at which it begins.
#[derive(Clone, Copy)]
struct Begun<'a> {
    name: &'a str,
    byte: usize,
    line: usize,
}

/// A text with marks, by which places are found.
#[derive(Drop)]
pub struct Marked<'a> {
    file: Named<'a>,
    marks: Vec<Mark>,
}

impl<'a> Marked<'a> {
    /// The marks of a text.
    pub fn of(alloc: Global, file: Named<'a>) -> Result<Marked<'a>, AllocError> {
        let mut marks = Vec::new(alloc);
        let mut mark = FIRST;
        for (at, character) in file.text.char_indices() {
            if at >= marks.len().saturating_mul(STEP) {
                marks.push(Mark { byte: at, ..mark })?;
            }
            mark = mark.behind(at, character);
        }
        Ok(Marked { file, marks })
    }

    // The mark at a byte or before it.
    fn before(&self, byte: usize) -> Mark {
        match self.marks.get(byte / STEP) {
            Some(mark) => *mark,
            None => self.marks.last().copied().unwrap_or(FIRST),
        }
    }

    // The line that begins at a byte.
    fn line_at(&self, begin: usize) -> &'a str {
        let text = self.file.text;
        let rest = text.get(begin..text.len()).unwrap_or("");
        let line = match rest.split_once('\n') {
            Some((line, _)) => line,
            None => rest,
        };
        line.strip_suffix('\r').unwrap_or(line)
    }

    // The mark at a byte.
    fn mark_at(&self, byte: usize) -> Mark {
        let start = self.before(byte);
        let mut mark = start;
        let rest = self.file.text.get(start.byte..byte).unwrap_or("");
        for (at, character) in rest.char_indices() {
            mark = mark.behind(start.byte.saturating_add(at), character);
        }
        mark
    }

    // Where the file begins that a byte is in.
    fn begun_at(&self, byte: usize) -> Begun<'a> {
        let part = match self.file.meant {
            Some(meant) => meant.part_at(byte),
            None => None,
        };
        match part {
            Some(part) => Begun {
                name: part.name,
                byte: part.start,
                line: self.mark_at(part.start).line,
            },
            None => Begun {
                name: self.file.name,
                byte: 0,
                line: 1,
            },
        }
    }

    /// Where a byte of the text stands, in its own file where the text is of several; nothing where the text is shorter.
    pub fn at_byte(&self, byte: usize) -> Option<Located<'a>> {
        if byte > self.file.text.len() {
            return None;
        }
        let mark = self.mark_at(byte);
        let begun = self.begun_at(byte);
        Some(Located {
            file: begun.name,
            spot: Spot {
                byte: byte.saturating_sub(begun.byte),
                line: mark.line.saturating_sub(begun.line).saturating_add(1),
                column: mark.column,
                text: self.line_at(mark.begin),
            },
        })
    }
}
