//! Notes that a text or the words of a command silence: `(* fbr: allow NAME *)` before a declaration does so in it.

use crate::noted::NoteKind;
use fb_lex::Token;
use fb_words::Mark;
use fbr_advice::tokens::{closer_of, mark_of};
use indexmap::IndexMap;
use std::alloc::{AllocError, Global};

/// Where notes are silenced, by their names: the bytes of declarations, from the first to before the last, in order and apart.
#[derive(Drop)]
pub struct Hushed {
    found: IndexMap<String, Vec<(usize, usize)>>,
}

/// All notes that are silenced: those that a text silences, and those whose names the words of a command give, with commas between them.
#[derive(Clone, Copy)]
pub struct Quiet<'a> {
    pub hushed: &'a Hushed,
    pub allowed: &'a str,
}

/// Whether a name is one of these, which have commas between them.
pub fn is_listed(names: &str, wanted: &str) -> bool {
    for name in names.split(',') {
        if name.trim() == wanted {
            return true;
        }
    }
    false
}

// Whether one of these declarations has a byte.
fn has_byte(parts: &[(usize, usize)], at: usize) -> bool {
    let mut low: usize = 0;
    let mut high: usize = parts.len();
    for _ in 0..64 {
        if low < high {
            let middle = low.saturating_add(high.saturating_sub(low) / 2);
            match parts.get(middle) {
                Some((from, _)) if *from <= at => low = middle.saturating_add(1),
                _ => high = middle,
            }
        }
    }
    match (low, parts.get(low.saturating_sub(1))) {
        (0, _) | (_, None) => false,
        (_, Some((_, to))) => at < *to,
    }
}

impl Quiet<'_> {
    /// Whether a note of a kind on a byte is silenced.
    pub fn is_quiet(self, kind: NoteKind, at: usize) -> bool {
        let name = kind.name();
        if is_listed(self.allowed, name) {
            return true;
        }
        match self.hushed.found.get(name) {
            Some(parts) => has_byte(parts, at),
            None => false,
        }
    }
}

// Whether a token opens what a word closes.
fn is_opener(token: Option<&Token>) -> bool {
    match mark_of(token) {
        Some(Mark::LParen | Mark::LBracket) | None => false,
        Some(mark) => closer_of(mark).is_some(),
    }
}

// Whether a token ends a declaration, or what stands around declarations.
fn is_closer(token: Option<&Token>) -> bool {
    match mark_of(token) {
        Some(mark) => mark.word().starts_with("END_"),
        None => false,
    }
}

// Whether a declaration begins with the token of an index.
fn is_begun(tokens: &[Token], index: usize) -> bool {
    let token = tokens.get(index);
    if is_closer(token) {
        return false;
    }
    if index == 0 || is_opener(token) {
        return true;
    }
    let before = tokens.get(index.saturating_sub(1));
    is_opener(before) || is_closer(before) || matches!(mark_of(before), Some(Mark::Semicolon))
}

// Behind which byte the declaration ends that begins with these tokens.
fn end_of(tokens: &[Token]) -> usize {
    let is_block = is_opener(tokens.first());
    let mut open: usize = 0;
    for token in tokens {
        let one = Some(token);
        match mark_of(one) {
            Some(Mark::Semicolon) if open == 0 => return token.end,
            Some(Mark::RParen | Mark::RBracket) => open = open.saturating_sub(1),
            Some(mark) => {
                if is_closer(one) {
                    open = open.saturating_sub(1);
                    if is_block && open == 0 {
                        return token.end;
                    }
                } else if closer_of(mark).is_some() {
                    open = open.saturating_add(1);
                }
            }
            None => {}
        }
    }
    usize::MAX
}

// The names that a comment silences.
fn names_in(comment: &str) -> Option<&str> {
    let (_, names) = comment.trim().strip_prefix("fbr:")?.split_once("allow")?;
    Some(names)
}

impl Hushed {
    // Silences a note in a declaration. One that stands in another is silenced with it.
    fn add(&mut self, alloc: Global, name: &str, from: usize, to: usize) -> Result<(), AllocError> {
        match self.found.get_mut(name) {
            Some(parts) => {
                let end = match parts.last() {
                    Some((_, end)) => *end,
                    None => 0,
                };
                if from >= end {
                    parts.push((from, to))?;
                }
            }
            None => {
                let mut parts = Vec::new(alloc);
                parts.push((from, to))?;
                self.found.insert(String::from_str(alloc, name)?, parts)?;
            }
        }
        Ok(())
    }

    // Silences what a comment names.
    fn add_names(
        &mut self,
        alloc: Global,
        names: &str,
        from: usize,
        to: usize,
    ) -> Result<(), AllocError> {
        for part in names.split(',') {
            for name in part.split_whitespace() {
                self.add(alloc, name, from, to)?;
            }
        }
        Ok(())
    }

    // Silences what the comments between two tokens name, in a declaration.
    fn add_gap(
        &mut self,
        alloc: Global,
        gap: &str,
        from: usize,
        to: usize,
    ) -> Result<(), AllocError> {
        let mut rest = gap;
        for _ in 0..gap.len() {
            let Some((_, behind)) = rest.split_once("(*") else {
                return Ok(());
            };
            let Some((comment, next)) = behind.split_once("*)") else {
                return Ok(());
            };
            if let Some(names) = names_in(comment) {
                self.add_names(alloc, names, from, to)?;
            }
            rest = next;
        }
        Ok(())
    }

    /// What the comments of a text silence.
    pub fn of(alloc: Global, text: &str, tokens: &[Token]) -> Result<Hushed, AllocError> {
        let mut hushed = Hushed {
            found: IndexMap::new(alloc),
        };
        let mut end: usize = 0;
        for (index, token) in tokens.iter().enumerate() {
            let gap = text.get(end..token.start).unwrap_or("");
            end = token.end;
            if gap.contains("fbr:") && is_begun(tokens, index) {
                let rest = tokens.get(index..tokens.len()).unwrap_or(&[]);
                hushed.add_gap(alloc, gap, token.start, end_of(rest))?;
            }
        }
        Ok(hushed)
    }
}
