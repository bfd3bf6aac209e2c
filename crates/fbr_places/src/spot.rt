//! Places in a text, as people count.

use crate::writing::Writing;

/// A character of a text: its line, and its place there.
#[derive(Clone, Copy)]
pub struct Spot<'a> {
    /// The number of its first byte in the text, from 0.
    pub byte: usize,
    /// The number of the line, from 1.
    pub line: usize,
    /// The number of the character in its line, from 1; at the line's end one more than it has.
    pub column: usize,
    /// The line, without its end.
    pub text: &'a str,
}

// How many characters begin before a byte of a line.
fn characters_before(line: &str, byte: usize) -> usize {
    let mut count: usize = 0;
    for (at, _) in line.char_indices() {
        if at < byte {
            count = count.saturating_add(1);
        }
    }
    count
}

// A line without the CR of a line end of two characters.
fn without_return(line: &str) -> &str {
    line.strip_suffix('\r').unwrap_or(line)
}

impl<'a> Spot<'a> {
    /// Where a byte of a text stands; nothing where the text is shorter.
    pub fn of_byte(text: &'a str, byte: usize) -> Option<Spot<'a>> {
        let mut rest = byte;
        for (index, line) in text.split('\n').enumerate() {
            if rest <= line.len() {
                return Some(Spot {
                    byte,
                    line: index.saturating_add(1),
                    column: characters_before(line, rest).saturating_add(1),
                    text: without_return(line),
                });
            }
            rest = rest - line.len() - 1;
        }
        None
    }

    /// Where a line of a text begins, of which the first is line 1; nothing where the text has fewer.
    pub fn of_line(text: &'a str, number: usize) -> Option<Spot<'a>> {
        let mut byte: usize = 0;
        for (index, line) in text.split('\n').enumerate() {
            if index == number.saturating_sub(1) {
                return Some(Spot {
                    byte,
                    line: number,
                    column: 1,
                    text: without_return(line),
                });
            }
            byte = byte.saturating_add(line.len()).saturating_add(1);
        }
        None
    }

    /// Writes the line, and a mark below the character.
    pub fn mark(&self, writing: &mut Writing) {
        let text = self.text;
        writing.put("    ");
        writing.put(text);
        writing.put("\n");
        writing.put("    ");
        for character in text.chars().take(self.column.saturating_sub(1)) {
            let blank = if character == '\t' { "\t" } else { " " };
            writing.put(blank);
        }
        writing.put("^\n");
    }
}
