//! Reading that goes on behind a fault.

use fb_lex::Token;
use fb_read::{Stop, begins_name, read_name};
use fb_tree::Name;
use fb_words::Mark;
use fbr_advice::tokens::{closer_of, mark_of};
use fbr_recovery_found::{Found, Piece};
use std::alloc::{AllocError, Global};

/// Where reading is in the tokens of a text, of which a declaration is read.
#[derive(Clone, Copy)]
pub(crate) struct Reader<'t> {
    pub(crate) alloc: Global,
    pub(crate) tokens: &'t [Token],
    /// The number of the next token.
    pub(crate) at: usize,
    /// The number of the token behind the last one of the declaration.
    pub(crate) end: usize,
    /// How many bytes the text has.
    pub(crate) length: usize,
    /// What is missing here was told, or may follow from what was told.
    pub(crate) is_lost: bool,
}

// Whether a word begins or ends a part of a declaration, in which items stand.
fn is_structural(mark: Mark) -> bool {
    match mark {
        Mark::LParen | Mark::LBracket | Mark::If | Mark::Case | Mark::For => false,
        Mark::EndIf | Mark::EndCase | Mark::EndFor => false,
        _ => closer_of(mark).is_some() || mark.word().starts_with("END_"),
    }
}

/// The number of the token before which reading stopped, and the number of the fault.
pub(crate) fn stopped_in(end: usize, stop: Stop) -> Result<(usize, u8), AllocError> {
    match stop {
        Stop::Memory => Err(AllocError),
        Stop::Syntax(left) => Ok((end.saturating_sub(left), 2)),
        Stop::TooDeep(left) => Ok((end.saturating_sub(left), 3)),
    }
}

impl<'t> Reader<'t> {
    /// What is left of the declaration.
    pub(crate) fn rest(&self) -> &'t [Token] {
        self.between(self.at, self.end)
    }

    /// The tokens from one number to before another one.
    pub(crate) fn between(&self, from: usize, to: usize) -> &'t [Token] {
        self.tokens.get(from..to).unwrap_or(&[])
    }

    /// The sign or the word that is next in the declaration.
    pub(crate) fn next(&self) -> Option<Mark> {
        mark_of(self.rest().first())
    }

    /// Whether a part of the declaration begins or ends next, or the declaration ends.
    pub(crate) fn is_between(&self) -> bool {
        if self.at >= self.end {
            return true;
        }
        match self.next() {
            Some(mark) => is_structural(mark),
            None => false,
        }
    }

    /// Goes behind the next token.
    pub(crate) fn pass(&mut self) {
        self.at = self.at.saturating_add(1);
    }

    // The byte at which a token begins.
    fn byte_of(&self, index: usize) -> usize {
        match self.tokens.get(index) {
            Some(token) => token.start,
            None => self.length,
        }
    }

    /// Tells that the token of a number cannot stand there, where reading began at another one; unless characters between these begin no token.
    pub(crate) fn tell(
        &self,
        from: usize,
        index: usize,
        code: u8,
        found: &mut Found<'_>,
    ) -> Result<(), AllocError> {
        // Behind the last token there may be a comment that is not closed.
        let to = self.byte_of(index);
        let behind = match self.tokens.get(from.saturating_sub(1)) {
            Some(token) if from > 0 => token.end,
            _ => 0,
        };
        if found.is_broken(behind, to) {
            return Ok(());
        }
        found.add(code, to)
    }

    /// Tells that the next token cannot stand there, unless reading is lost; it is then.
    pub(crate) fn tell_here(&mut self, found: &mut Found<'_>) -> Result<(), AllocError> {
        if !self.is_lost {
            self.tell(self.at, self.at, 2, found)?;
        }
        self.is_lost = true;
        Ok(())
    }

    // Goes behind the `;` that comes first at a token or behind it; before what begins or ends a part of the declaration.
    fn skip_item(&mut self, index: usize) {
        self.at = index;
        for _ in index..self.end {
            if self.is_between() {
                return;
            }
            let is_last = matches!(self.next(), Some(Mark::Semicolon));
            self.pass();
            if is_last {
                return;
            }
        }
    }

    // Goes behind the `;` at which an item ends, before what can begin another one: each begins with a name.
    fn skip_whole(&mut self, index: usize) {
        self.skip_item(index);
        for _ in self.at..self.end {
            if self.is_between() || begins_name(self.rest()) {
                return;
            }
            self.skip_item(self.at);
        }
    }

    /// Goes to what begins or ends a part of the declaration next. What is between is in doubt.
    pub(crate) fn skip_to_part(&mut self, found: &mut Found<'_>) -> Result<(), AllocError> {
        let from = self.at;
        for _ in from..self.end {
            if self.is_between() {
                break;
            }
            self.pass();
        }
        found.doubt_all(from, self.at)
    }

    // Tells that reading an item stopped, and goes on behind it; or at the token where it stopped, if an item begins there, since `;` may be missing before it.
    fn recover<P: Piece>(
        &mut self,
        stop: Stop,
        items: &mut Vec<P>,
        found: &mut Found<'_>,
    ) -> Result<(), AllocError> {
        let from = self.at;
        let (index, code) = stopped_in(self.end, stop)?;
        self.tell(from, index, code, found)?;
        if !P::declares() {
            self.skip_whole(index);
            return Ok(());
        }
        if index == from {
            found.is_nameless = true;
        }
        self.at = index;
        if index == from || !begins_name(self.rest()) {
            self.skip_whole(index);
            return found.doubt_all(from, self.at);
        }
        match P::read_piece(self.alloc, self.rest()) {
            Ok((item, rest)) => {
                items.push(item)?;
                self.at = self.end.saturating_sub(rest.len());
            }
            Err(Stop::Memory) => return Err(AllocError),
            Err(_) => self.skip_whole(index),
        }
        found.doubt_all(from, self.at)
    }

    /// The items up to a word, and goes behind it.
    pub(crate) fn items<P: Piece>(
        &mut self,
        closing: Mark,
        found: &mut Found<'_>,
    ) -> Result<Vec<P>, AllocError> {
        let mut items = Vec::new(self.alloc);
        for _ in self.at..self.end {
            if self.is_between() {
                break;
            }
            match P::read_piece(self.alloc, self.rest()) {
                Ok((item, rest)) => {
                    items.push(item)?;
                    self.at = self.end.saturating_sub(rest.len());
                }
                Err(stop) => self.recover(stop, &mut items, found)?,
            }
        }
        if self.next() == Some(closing) {
            self.pass();
            self.is_lost = false;
        } else {
            self.tell_here(found)?;
        }
        Ok(items)
    }

    /// The name that is next; where there is none, an empty one.
    pub(crate) fn name(&mut self, found: &mut Found<'_>) -> Result<Name, AllocError> {
        match read_name(self.rest()) {
            Ok((name, _)) => {
                self.pass();
                Ok(name)
            }
            Err(Stop::Memory) => Err(AllocError),
            Err(_) => {
                self.tell_here(found)?;
                let at = self.byte_of(self.at);
                self.skip_to_part(found)?;
                Ok(Name {
                    text: String::new(self.alloc),
                    at,
                })
            }
        }
    }
}
