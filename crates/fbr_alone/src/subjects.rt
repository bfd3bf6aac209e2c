//! The block types that a story plays alone.

use fb_lex::{Kind, Token};
use fb_words::Mark;
use std::alloc::{AllocError, Global};

/// A block type that a story plays alone: its name in upper case, and the byte of the story at which it stands first.
#[derive(Clone, Copy)]
pub struct Subject<'t> {
    pub name: &'t str,
    pub at: usize,
}

// The block type behind FOR BLOCK, where the token of a number is this FOR.
fn subject_at(tokens: &[Token], index: usize) -> Option<Subject<'_>> {
    let Kind::Mark(Mark::For) = &tokens.get(index)?.kind else {
        return None;
    };
    let Kind::Name(word) = &tokens.get(index.saturating_add(1))?.kind else {
        return None;
    };
    let token = tokens.get(index.saturating_add(2))?;
    match &token.kind {
        Kind::Name(name) if word.as_str() == "BLOCK" => Some(Subject {
            name: name.as_str(),
            at: token.start,
        }),
        _ => None,
    }
}

// Whether a block type is among these.
fn is_among(subjects: &[Subject<'_>], name: &str) -> bool {
    for subject in subjects {
        if subject.name == name {
            return true;
        }
    }
    false
}

/// The block types that a story of these tokens plays alone, each once.
pub fn subjects_in(alloc: Global, tokens: &[Token]) -> Result<Vec<Subject<'_>>, AllocError> {
    let mut subjects = Vec::new(alloc);
    for index in 0..tokens.len() {
        if let Some(subject) = subject_at(tokens, index) {
            if !is_among(&subjects, subject.name) {
                subjects.push(subject)?;
            }
        }
    }
    Ok(subjects)
}
