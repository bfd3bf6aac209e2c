//! The tokens of a story, one after another.

use crate::story::Span;
use fb_lex::{Kind, Token};
use fb_words::Mark;
use fbr_names::{Fault, Names};
use std::alloc::Global;

/// The tokens of a story, how many of them are read, and what its names stand for: those of its system first, and then those of each block type that it
/// plays alone.
#[derive(Drop)]
pub(crate) struct Reader<'a> {
    pub(crate) alloc: Global,
    pub(crate) text: &'a str,
    pub(crate) tokens: &'a [Token],
    pub(crate) all: &'a [Names<'a>],
    pub(crate) first: &'a Names<'a>,
    /// Which of them are those of the sequence that is read.
    pub(crate) scope: usize,
    pub(crate) at: usize,
}

impl<'a> Reader<'a> {
    /// The names of the sequence that is read.
    pub(crate) fn names(&self) -> &'a Names<'a> {
        let all: &'a [Names<'a>] = self.all;
        let first: &'a Names<'a> = self.first;
        all.get(self.scope).unwrap_or(first)
    }

    /// The token that stands so many tokens behind the next one.
    pub(crate) fn peek(&self, ahead: usize) -> Option<&'a Token> {
        let tokens: &'a [Token] = self.tokens;
        tokens.get(self.at.saturating_add(ahead))
    }

    /// Goes past the next token.
    pub(crate) fn pass(&mut self) {
        self.at = self.at.saturating_add(1);
    }

    /// Where the next token begins.
    pub(crate) fn start(&self) -> usize {
        match self.peek(0) {
            Some(token) => token.start,
            None => self.text.len(),
        }
    }

    // Where the last token ends that was read.
    fn end(&self) -> usize {
        match self.tokens.get(self.at.saturating_sub(1)) {
            Some(token) => token.end,
            None => self.text.len(),
        }
    }

    /// What was read from a byte on.
    pub(crate) fn said(&self, from: usize) -> Span {
        Span {
            from,
            to: self.end(),
        }
    }

    // Whether the token that stands so many tokens behind the next one is this mark.
    fn has_mark(&self, ahead: usize, mark: Mark) -> bool {
        match self.peek(ahead) {
            Some(token) => match &token.kind {
                Kind::Mark(found) => *found == mark,
                _ => false,
            },
            None => false,
        }
    }

    /// Whether the next token is this mark.
    pub(crate) fn is_mark(&self, mark: Mark) -> bool {
        self.has_mark(0, mark)
    }

    /// Goes past this mark, if it stands next.
    pub(crate) fn take_mark(&mut self, mark: Mark) -> bool {
        let is_next = self.is_mark(mark);
        if is_next {
            self.pass();
        }
        is_next
    }

    /// Goes past this mark, which is to stand next.
    pub(crate) fn mark(&mut self, mark: Mark, what: &str) -> Result<(), Fault> {
        if self.take_mark(mark) {
            return Ok(());
        }
        let words = [what, " is missing here, before ", self.next_text()];
        Err(Fault::at(self.alloc, self.end(), &words))
    }

    // The next token, if it is a name.
    fn word(&self) -> Option<&'a str> {
        match self.peek(0) {
            Some(token) => match &token.kind {
                Kind::Name(text) => Some(text.as_str()),
                _ => None,
            },
            None => None,
        }
    }

    /// Whether the first of these marks stands next, a name behind it, and then the second.
    pub(crate) fn is_named_behind(&self, first: Mark, second: Mark) -> bool {
        self.has_mark(0, first) && self.has_name_behind() && self.has_mark(2, second)
    }

    /// Whether a name stands behind the next token.
    pub(crate) fn has_name_behind(&self) -> bool {
        match self.peek(1) {
            Some(token) => matches!(&token.kind, Kind::Name(_)),
            None => false,
        }
    }

    /// Whether this word of stories stands next. Before a `(` or a `.` it is the name of an instance.
    pub(crate) fn is_word(&self, word: &str) -> bool {
        match self.word() {
            Some(found) => {
                found == word && !self.has_mark(1, Mark::LParen) && !self.has_mark(1, Mark::Dot)
            }
            None => false,
        }
    }

    /// Goes past this word of stories, if it stands next.
    pub(crate) fn take_word(&mut self, word: &str) -> bool {
        let is_next = self.is_word(word);
        if is_next {
            self.pass();
        }
        is_next
    }

    /// Goes past this word of stories, which is to stand next.
    pub(crate) fn expect_word(&mut self, word: &str) -> Result<(), Fault> {
        if self.take_word(word) {
            Ok(())
        } else {
            Err(self.expected(word))
        }
    }

    /// The name that is to stand next, in upper case.
    pub(crate) fn name(&mut self, what: &str) -> Result<&'a str, Fault> {
        match self.word() {
            Some(name) => {
                self.pass();
                Ok(name)
            }
            None => Err(self.expected(what)),
        }
    }

    /// The names that are to stand next, joined by dots, in upper case.
    pub(crate) fn path(&mut self, what: &str) -> Result<String, Fault> {
        let first = self.name(what)?;
        let mut path = String::from_str(self.alloc, first)?;
        for _ in 0..self.tokens.len() {
            if !self.take_mark(Mark::Dot) {
                break;
            }
            let next = self.name("a name")?;
            path.push_str(".")?;
            path.push_str(next)?;
        }
        Ok(path)
    }

    /// The whole number that is to stand next.
    pub(crate) fn number(&mut self) -> Result<u64, Fault> {
        if let Some(token) = self.peek(0) {
            if let Kind::Number(number) = &token.kind {
                self.pass();
                return Ok(*number);
            }
        }
        Err(self.expected("a number"))
    }

    // The text of the next token.
    fn next_text(&self) -> &'a str {
        let text: &'a str = self.text;
        match self.peek(0) {
            Some(token) => text.get(token.start..token.end).unwrap_or(""),
            None => "the end of the story",
        }
    }

    /// That something else is expected next.
    pub(crate) fn expected(&self, what: &str) -> Fault {
        let words = [what, " is expected here, not ", self.next_text()];
        Fault::at(self.alloc, self.start(), &words)
    }
}
