//! The tokens before a place, and whether the grammar goes on with others there.

use fb_faults::TextFault;
use fb_lex::{Kind, Token};
use fb_text::parse_tokens;
use fb_words::Mark;
use fbr_advice::tokens::{closer_of, mark_of, open_before};
use fbr_advice::wanted::Cursor;
use fbr_places::tokens_of;
use std::alloc::{AllocError, Global};

/// Tokens before a place on which it depends what can stand there, and the token that stands there.
#[derive(Drop)]
pub struct Stopped {
    pub alloc: Global,
    pub before: Vec<Token>,
    pub found: Option<Token>,
    /// The token behind that.
    pub next: Option<Token>,
    pub at: usize,
    /// Where the last token before the place ends.
    pub end: usize,
    /// Where the token before that one ends.
    pub previous: usize,
    /// More than the text has bytes.
    pub length: usize,
    // How many tokens stay where an item of a section or a statement is whole.
    kept: Option<usize>,
    // How many statements are open.
    nested: usize,
}

/// The tokens before a byte, and the one that begins there.
pub fn stopped_at(alloc: Global, text: &str, at: usize) -> Result<Option<Stopped>, AllocError> {
    let Some(tokens) = tokens_of(alloc, text)? else {
        return Ok(None);
    };
    let mut stopped = Stopped {
        alloc,
        before: Vec::new(alloc),
        found: None,
        next: None,
        at,
        end: 0,
        previous: 0,
        length: text.len().saturating_add(1),
        kept: None,
        nested: 0,
    };
    for token in tokens {
        if token.start < at {
            stopped.pass(token)?;
        } else if token.start == at {
            stopped.found = Some(token);
        } else if stopped.next.is_none() {
            stopped.next = Some(token);
        }
    }
    Ok(Some(stopped))
}

impl Stopped {
    // Adds a token before the place. Whole block types, items of sections and statements go: what can stand behind does not depend on them.
    fn pass(&mut self, token: Token) -> Result<(), AllocError> {
        let mark = mark_of(Some(&token));
        self.previous = self.end;
        self.end = token.end;
        if let Some(Mark::FunctionBlock | Mark::System) = mark {
            self.before.truncate(0);
        }
        self.before.push(token)?;
        let count = self.before.len();
        match mark {
            Some(Mark::FunctionBlock | Mark::System | Mark::EcStates) => self.kept = None,
            Some(
                Mark::EventInput
                | Mark::EventOutput
                | Mark::VarInput
                | Mark::VarOutput
                | Mark::Var
                | Mark::EcTransitions
                | Mark::Fbs
                | Mark::EventConnections
                | Mark::DataConnections,
            ) => self.kept = Some(count),
            // Its name, IN, ST and a colon stand behind it.
            Some(Mark::Algorithm) => self.kept = Some(count.saturating_add(4)),
            Some(Mark::If | Mark::Case | Mark::For) => {
                self.nested = self.nested.saturating_add(1);
            }
            Some(Mark::EndIf | Mark::EndCase | Mark::EndFor) => {
                self.nested = self.nested.saturating_sub(1);
            }
            Some(Mark::Semicolon) if self.nested == 0 => {
                self.before.truncate(self.kept.unwrap_or(count));
            }
            _ => {}
        }
        Ok(())
    }

    // Whether the grammar goes on behind the tokens.
    fn goes_on(&self) -> Result<bool, AllocError> {
        match parse_tokens(self.alloc, &self.before, self.length) {
            Ok(tree) => {
                tree.let_go();
                Ok(true)
            }
            Err(TextFault::Syntax(at)) => Ok(at == self.length),
            Err(TextFault::OutOfMemory) => Err(AllocError),
            Err(_) => Ok(false),
        }
    }

    // Adds a token.
    fn add(&mut self, kind: Kind) -> Result<(), AllocError> {
        self.before.push(Token {
            kind,
            start: self.at,
            end: self.at,
        })?;
        Ok(())
    }

    /// Whether a token of this kind could stand there.
    pub fn takes(&mut self, kind: Kind) -> Result<bool, AllocError> {
        self.add(kind)?;
        let taken = self.goes_on();
        let _ = self.before.pop();
        taken
    }

    /// Whether a name could stand for the token that was found, so that the one behind it fits.
    pub fn takes_name(&mut self) -> Result<bool, AllocError> {
        let Some(next) = self.next.take() else {
            return Ok(false);
        };
        let name = String::from_str(self.alloc, "A")?;
        self.add(Kind::Name(name))?;
        self.before.push(next)?;
        let fits = self.goes_on();
        self.next = self.before.pop();
        let _ = self.before.pop();
        fits
    }

    // Whether the token that was found could stand behind another one, or behind two.
    fn fits_behind(&mut self, first: Mark, second: Option<Mark>) -> Result<bool, AllocError> {
        let Some(found) = self.found.take() else {
            return Ok(false);
        };
        let count = self.before.len();
        self.add(Kind::Mark(first))?;
        if let Some(mark) = second {
            self.add(Kind::Mark(mark))?;
        }
        self.before.push(found)?;
        let fits = self.goes_on();
        self.found = self.before.pop();
        self.before.truncate(count);
        fits
    }

    /// What is open there.
    pub fn open(&self) -> Option<(Mark, usize)> {
        let token = self
            .before
            .get(open_before(&self.before, self.before.len())?)?;
        Some((mark_of(Some(token))?, token.start))
    }

    /// The word that begins the section in which the place is.
    pub fn section(&self) -> Option<Mark> {
        let (section, _) = Cursor {
            tokens: &self.before,
            index: self.before.len(),
        }
        .section();
        section
    }

    /// Whether an IF stands right behind an ELSE in what is open there.
    pub fn is_else_if(&self) -> bool {
        let open = open_before(&self.before, self.before.len()).unwrap_or(self.before.len());
        let mut is_else = false;
        for token in self.before.get(open..).unwrap_or(&[]) {
            let mark = mark_of(Some(token));
            if is_else && matches!(mark, Some(Mark::If)) {
                return true;
            }
            is_else = matches!(mark, Some(Mark::Else));
        }
        false
    }

    /// What is open there that a word closes.
    pub fn opened_for(&self, end: Mark) -> Option<(Mark, usize)> {
        let mut index = self.before.len();
        for _ in 0..self.before.len() {
            index = open_before(&self.before, index)?;
            let token = self.before.get(index)?;
            let opener = mark_of(Some(token))?;
            if closer_of(opener)? == end {
                return Some((opener, token.start));
            }
        }
        None
    }

    /// The sign or word that is missing before the token that was found: one that closes what is open comes last.
    pub fn missing(&mut self) -> Result<Option<Mark>, AllocError> {
        for mark in [
            Mark::Semicolon,
            Mark::RParen,
            Mark::RBracket,
            Mark::Then,
            Mark::Do,
            Mark::Of,
            Mark::To,
            Mark::Colon,
        ] {
            if self.fits_behind(mark, None)? {
                return Ok(Some(mark));
            }
        }
        let Some((open, _)) = self.open() else {
            return Ok(None);
        };
        let Some(closer) = closer_of(open) else {
            return Ok(None);
        };
        let behind = match open {
            Mark::If | Mark::Case | Mark::For => Some(Mark::Semicolon),
            _ => None,
        };
        let fits = self.fits_behind(closer, behind)?;
        Ok(if fits { Some(closer) } else { None })
    }
}
