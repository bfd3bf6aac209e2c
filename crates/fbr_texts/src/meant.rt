//! Which file a byte of a joined text is in.

ghost use Rattle.std.specs.Prelude.{◌≡◌, map, option_map, None};
ghost use Rattle.fbr_texts.specs.Parts.{part_in, start_of};

/// A file of a joined text: its name, and where in that text it begins.
#[derive(Clone, Copy)]
pub struct Part<'a> {
    pub name: &'a str,
    pub start: usize,
}

/// The text that several files are together, and these files in their order, of which the application's is the last.
#[derive(Clone, Copy)]
pub struct Meant<'a> {
    /// The name of the application's file.
    pub app: &'a str,
    pub text: &'a str,
    pub parts: &'a [Part<'a>],
}

// The last of some files that does not begin behind a byte.
fn part_among<'a>(parts: &[Part<'a>], at: usize) -> Option<Part<'a>>
    ensures { option_map start_of result ≡ part_in None at (map start_of parts.now) }
{
    let mut best = None;
    for part in parts {
        if part.start > at {
            return best;
        }
        best = Some(*part);
    }
    best
}

impl<'a> Meant<'a> {
    /// The file that a byte of the text is in.
    pub fn part_at(self, at: usize) -> Option<Part<'a>>
        ensures { option_map start_of result ≡ part_in None at (map start_of self.entry.parts.now) }
    {
        part_among(self.parts, at)
    }

    /// The text of such a file: it goes up to the next one.
    pub fn text_of(self, part: Part<'a>) -> &'a str {
        for next in self.parts {
            if next.start > part.start {
                return self.text.get(part.start..next.start).unwrap_or("");
            }
        }
        self.text.get(part.start..).unwrap_or("")
    }
}
