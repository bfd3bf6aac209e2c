//! Texts of files, and places in them.

use crate::spot::Spot;
use crate::writing::Writing;
use fbr_texts::Meant;

/// A text, and the name of its file; and the files that it is together, where there are several.
#[derive(Clone, Copy)]
pub struct Named<'a> {
    pub name: &'a str,
    pub text: &'a str,
    pub meant: Option<Meant<'a>>,
}

/// A character of the text of a file.
#[derive(Clone, Copy)]
pub struct Located<'a> {
    /// The file's name.
    pub file: &'a str,
    pub spot: Spot<'a>,
}

// Where a byte of a text of several files stands in its own; nothing where there is none.
fn located_in(meant: Meant<'_>, byte: usize) -> Option<Located<'_>> {
    let part = meant.part_at(byte)?;
    let own = byte.saturating_sub(part.start);
    let spot = Spot::of_byte(meant.text_of(part), own)?;
    Some(Located {
        file: part.name,
        spot,
    })
}

impl<'a> Named<'a> {
    /// Where a byte of the text stands: in its own file, where the text is of several; nothing where the text is shorter.
    pub fn at_byte(self, byte: usize) -> Option<Located<'a>> {
        if let Some(meant) = self.meant {
            return located_in(meant, byte);
        }
        let file = self.name;
        let spot = Spot::of_byte(self.text, byte)?;
        Some(Located { file, spot })
    }

    /// Where a line of the text begins, of which the first is line 1; nothing where the text has fewer.
    pub fn at_line(self, line: usize) -> Option<Located<'a>> {
        let file = self.name;
        let spot = Spot::of_line(self.text, line)?;
        Some(Located { file, spot })
    }
}

impl Located<'_> {
    /// Writes the file, the line and the column.
    pub fn put(&self, writing: &mut Writing) {
        writing.put(self.file);
        writing.put(":");
        writing.show(&self.spot.line);
        writing.put(":");
        writing.show(&self.spot.column);
    }

    /// Writes the same, and below it the line with a mark.
    pub fn show(&self, writing: &mut Writing) {
        self.put(writing);
        writing.put("\n");
        self.spot.mark(writing);
    }
}

/// Writes the file, the line and the column of a byte of a text.
pub fn tell_where(file: Named<'_>, byte: usize, writing: &mut Writing) {
    if let Some(located) = file.at_byte(byte) {
        located.put(writing);
    }
}
