//! What people are told of a step that failed.

use crate::course::{Course, MOST};
use crate::failure::Failure;
use crate::looking::Finding;
use crate::seen::{Seen, Sight, Sights};
use fb_lex::{Kind, Token};
use fbr_names::Names;
use fbr_places::{Spot, Writing};
use fbr_story::{Looked, Span, Wanted, show_value};
use std::alloc::{AllocError, Global};

/// A story that people are told of: its text and tokens, and its names.
#[derive(Clone, Copy)]
pub struct Telling<'a, 'n> {
    pub text: &'a str,
    pub tokens: &'a [Token],
    pub names: &'n Names<'a>,
}

// Writes a text in one line.
fn put_line(text: &str, writing: &mut Writing) {
    let mut is_first = true;
    for word in text.split_whitespace() {
        if !is_first {
            writing.put(" ");
        }
        writing.put(word);
        is_first = false;
    }
}

impl<'a> Telling<'a, '_> {
    /// The text of the story between two bytes.
    pub(crate) fn source(&self, span: Span) -> &'a str {
        let text: &'a str = self.text;
        text.get(span.from..span.to).unwrap_or("")
    }

    // Writes a name as the story spells it first, or else in upper case.
    fn put_name(&self, name: &str, writing: &mut Writing) {
        for token in self.tokens {
            if let Kind::Name(text) = &token.kind {
                if text.as_str() == name {
                    writing.put(self.text.get(token.start..token.end).unwrap_or(name));
                    return;
                }
            }
        }
        writing.put(name);
    }

    // Writes the names of a path as the story spells them.
    fn put_path(&self, path: &str, writing: &mut Writing) {
        let mut is_first = true;
        for name in path.split('.') {
            if !is_first {
                writing.put(".");
            }
            self.put_name(name, writing);
            is_first = false;
        }
    }

    // Writes an OUTPUT with the values that it wrote.
    fn put_write(
        &self,
        alloc: Global,
        device: u16,
        output: u16,
        values: &[i64],
        writing: &mut Writing,
    ) -> Result<(), AllocError> {
        let Some(place) = self.names.output(device, output) else {
            return Ok(());
        };
        let name = self.names.shortest(alloc, place)?;
        self.put_path(name.as_str(), writing);
        writing.put("(");
        if let Some((_, types)) = place.port() {
            let mut is_first = true;
            for (of_type, value) in types.iter().zip(values) {
                if !is_first {
                    writing.put(", ");
                }
                show_value(*of_type, *value, writing);
                is_first = false;
            }
        }
        writing.put(")");
        Ok(())
    }

    // Writes one thing that the outside saw.
    fn put_sight(
        &self,
        alloc: Global,
        seen: &Seen,
        writing: &mut Writing,
    ) -> Result<(), AllocError> {
        match &seen.what {
            Sight::Write(output, values) => {
                self.put_write(alloc, seen.device, *output, values.as_slice(), writing)
            }
            Sight::Denied(denied) => {
                writing.put("DENIED ");
                writing.show(&denied.code());
                Ok(())
            }
            Sight::DeniedDatagram(denied) => {
                writing.put("DENIED ");
                writing.show(&denied.code());
                writing.put(" (a datagram at ");
                self.put_name(self.names.device_name(seen.device), writing);
                writing.put(")");
                Ok(())
            }
        }
    }

    /// The failure of the step of this text, by what it wants and what came.
    pub(crate) fn failure(
        &self,
        alloc: Global,
        said: Span,
        wanted: Writing,
        came: Writing,
    ) -> Result<Failure, AllocError> {
        let line = match Spot::of_byte(self.text, said.from) {
            Some(spot) => spot.line,
            None => 1,
        };
        Ok(Failure {
            line,
            step: self.line(alloc, said).text()?,
            wanted: wanted.text()?,
            came: came.text()?,
        })
    }

    /// The text of the story between two bytes, on one line.
    pub(crate) fn line(&self, alloc: Global, span: Span) -> Writing {
        let mut writing = Writing::new(alloc);
        put_line(self.source(span), &mut writing);
        writing
    }

    /// What a stimulus wants the outside to see.
    pub(crate) fn wanted(&self, alloc: Global, wanted: &Option<Wanted>) -> Writing {
        let mut writing = Writing::new(alloc);
        match wanted {
            Some(wanted) => put_wanted(self.source(wanted.said), &mut writing),
            None => writing.put("nothing DENIED"),
        }
        writing
    }

    /// All that the outside saw.
    pub(crate) fn seen(&self, alloc: Global, sights: &Sights) -> Result<Writing, AllocError> {
        let mut writing = Writing::new(alloc);
        if sights.all.is_empty() {
            writing.put("-> ;");
        }
        for (index, seen) in sights.all.iter().enumerate() {
            writing.put(if index == 0 { "-> " } else { " -> " });
            self.put_sight(alloc, seen, &mut writing)?;
        }
        Ok(writing)
    }

    /// What was found where something was looked at.
    pub(crate) fn found(
        &self,
        alloc: Global,
        looked: &Looked<'_>,
        finding: Option<Finding>,
    ) -> Writing {
        let mut writing = Writing::new(alloc);
        match (looked, finding) {
            (Looked::Value(variable, _), Some(Finding::Value(value))) => {
                show_value(variable.of_type, value, &mut writing);
            }
            (Looked::State(_, block, _), Some(Finding::State(state))) => {
                if let Some((name, _)) = block.states.get_index(usize::from(state)) {
                    self.put_name(name.as_str(), &mut writing);
                }
            }
            (_, Some(Finding::Pending(count))) => writing.show(&count),
            _ => {}
        }
        writing
    }
}

// Writes the text of what was wanted.
fn put_wanted(text: &str, writing: &mut Writing) {
    if text == "->" {
        writing.put("-> ;");
    } else {
        put_line(text, writing);
    }
}

/// A text, and a number.
pub(crate) fn counted(alloc: Global, text: &str, number: u64) -> Writing {
    let mut writing = Writing::new(alloc);
    writing.put(text);
    writing.show(&number);
    writing
}

/// What is said where an end is wanted.
pub(crate) fn an_end(alloc: Global) -> Writing {
    let mut writing = Writing::new(alloc);
    writing.put("an end");
    writing
}

/// That a stimulus caused more dispatches than it may.
pub(crate) fn endless<F, W>(alloc: Global, course: &Course<'_, '_, '_, F, W>) -> Writing {
    let mut writing = counted(alloc, "none within ", MOST);
    writing.put(" dispatches");
    if let Some(channel) = course.channel {
        writing.put("; the last datagram went to channel ");
        writing.show(&channel);
    }
    writing
}
