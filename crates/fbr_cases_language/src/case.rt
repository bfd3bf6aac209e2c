//! A case: sections by name.

use std::alloc::AllocError;

/// A part of a case: its name and its text.
#[derive(Clone, Copy)]
pub struct Section<'a> {
    pub name: &'a str,
    pub text: &'a str,
}

/// A case, with the sections that it and the cases before it in its file give; of those with one name the last is its own.
#[derive(Drop)]
pub struct Case<'a> {
    pub label: &'a str,
    pub sections: Vec<Section<'a>>,
}

impl<'a> Case<'a> {
    /// The text of a section; none where no case so far gave it.
    pub fn given(&self, name: &str) -> Option<&'a str> {
        for section in self.sections.iter().rev() {
            if section.name == name {
                return Some(section.text);
            }
        }
        None
    }

    /// The text of a section; the empty text where no case so far gave it.
    pub fn text(&self, name: &str) -> &'a str {
        self.given(name).unwrap_or("")
    }

    /// Gives a section.
    pub fn give(&mut self, name: &'a str, text: &'a str) -> Result<(), AllocError> {
        self.sections.push(Section { name, text })?;
        Ok(())
    }
}
