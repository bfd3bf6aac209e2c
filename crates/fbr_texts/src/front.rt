//! Declarations of block types at the front of a text, by its tokens.

ghost use Rattle.std.specs.Prelude.{◌≡◌, IfOk, MatchResult};
ghost use Rattle.fb_lex.specs.Lexing.{Refuses};
ghost use Rattle.fb_lex.specs.Views.{token_of, tokens_of};
ghost use Rattle.fbr_texts.specs.Fronts.{IsFrontOf, at_first, closed, entered, front_of, go_on, is_mark, is_name, named, run, step};

use fb_faults::TextFault;
use fb_lex::{Kind, Token, lex};
use fb_words::Mark;
use std::alloc::{AllocError, Global};

/// The bytes of a text that a declaration takes, from `from` to before `to`.
#[derive(Clone, Copy)]
pub struct Span {
    pub from: usize,
    pub to: usize,
}

/// Where reading is.
#[derive(Clone, Copy)]
pub enum Place {
    /// Between declarations.
    Between,
    /// In one that begins at this byte.
    Within(usize),
    /// Behind the SYSTEM at this byte.
    Opened(usize),
    /// Behind its name.
    Named(usize),
    /// Behind its END_SYSTEM: it is a system of no devices.
    Closed(usize),
    /// Past them all, since at this byte something else begins.
    Past(usize),
}

/// The declarations at the front of a text, and where reading is behind its last token.
#[derive(Drop)]
pub struct Front {
    pub spans: Vec<Span>,
    pub place: Place,
}

// Whether a token is this mark.
fn is_mark(token: &Token, mark: Mark) -> bool
    ensures { result ≡ is_mark mark (token_of token.now) }
{
    match &token.kind {
        Kind::Mark(found) => *found == mark,
        _ => false,
    }
}

// Whether a token is a name.
fn is_name(token: &Token) -> bool
    ensures { result ≡ is_name (token_of token.now) }
{
    matches!(&token.kind, Kind::Name(_))
}

// Where reading is behind a token that stands between declarations.
fn entered(token: &Token) -> Place
    ensures { result ≡ entered (token_of token.now) }
{
    if is_mark(token, Mark::FunctionBlock) {
        Place::Within(token.start)
    } else if is_mark(token, Mark::System) {
        Place::Opened(token.start)
    } else {
        Place::Past(token.start)
    }
}

// Where it is behind one that is to be the name of a system.
fn named(at: usize, token: &Token) -> Place
    ensures { result ≡ named at (token_of token.now) }
{
    if is_name(token) {
        Place::Named(at)
    } else {
        Place::Past(token.start)
    }
}

// Where it is behind one that is to end a system.
fn closed(at: usize, token: &Token) -> Place
    ensures { result ≡ closed at (token_of token.now) }
{
    if is_mark(token, Mark::EndSystem) {
        Place::Closed(at)
    } else {
        Place::Past(token.start)
    }
}

impl Front {
    // One token more within a declaration, which begins at a byte.
    fn go_on(&mut self, from: usize, token: &Token) -> Result<(), AllocError>
        ensures { IfOk result (λ _. front_of self.new ≡ go_on (front_of self.old).spans from (token_of token.now)) }
    {
        if is_mark(token, Mark::EndFunctionBlock) {
            let to = token.end;
            self.spans.push(Span { from, to })?;
            self.place = Place::Between;
        } else {
            self.place = Place::Within(from);
        }
        Ok(())
    }

    // One token more.
    fn take(&mut self, token: &Token) -> Result<(), AllocError>
        ensures { IfOk result (λ _. front_of self.new ≡ step (front_of self.old) (token_of token.now)) }
    {
        match self.place {
            Place::Within(from) => return self.go_on(from, token),
            Place::Between => self.place = entered(token),
            Place::Opened(at) => self.place = named(at, token),
            Place::Named(at) => self.place = closed(at, token),
            Place::Closed(_) => self.place = Place::Past(token.start),
            Place::Past(_) => {}
        }
        Ok(())
    }
}

// The front of a text of these tokens.
fn front_by(alloc: Global, tokens: &[Token]) -> Result<Front, AllocError>
    ensures { IfOk result (λ f. front_of f ≡ run at_first (tokens_of tokens.now)) }
{
    let mut front = Front {
        spans: Vec::new(alloc),
        place: Place::Between,
    };
    for token in tokens {
        front.take(token)?;
    }
    Ok(front)
}

/// The front of a text; or why it has no tokens.
pub(crate) fn front_in(alloc: Global, text: &str) -> Result<Front, TextFault>
    ensures { MatchResult result (λ f. IsFrontOf text.now (front_of f)) (λ fault. Refuses fault text.now) }
{
    match lex(alloc, text) {
        Ok(tokens) => match front_by(alloc, &tokens) {
            Ok(front) => Ok(front),
            Err(_) => Err(TextFault::OutOfMemory),
        },
        Err(fault) => Err(fault),
    }
}
