//! What a name at a place of a text has to stand for, by the tokens around it.

use crate::tokens::{mark_of, open_before};
use fb_lex::Token;
use fb_words::Mark;

/// What a name has to stand for.
#[derive(Clone, Copy)]
pub enum Wanted {
    EventInput,
    EventOutput,
    Input,
    Output,
    Instance,
    Type,
    State,
    Algorithm,
    Variable,
    Function,
}

impl Wanted {
    /// What that is called.
    pub fn says(self) -> &'static str {
        match self {
            Wanted::EventInput => "event input",
            Wanted::EventOutput => "event output",
            Wanted::Input => "data input",
            Wanted::Output => "data output",
            Wanted::Instance => "instance",
            Wanted::Type => "type",
            Wanted::State => "state",
            Wanted::Algorithm => "algorithm",
            Wanted::Variable => "variable",
            Wanted::Function => "function",
        }
    }
}

impl Wanted {
    /// How it is said that something is none.
    pub fn denied(self) -> &'static str {
        match self {
            Wanted::EventInput | Wanted::EventOutput | Wanted::Instance | Wanted::Algorithm => {
                ", not an "
            }
            _ => ", not a ",
        }
    }
}

/// A token of a text, among all its tokens.
#[derive(Clone, Copy)]
pub struct Cursor<'a> {
    pub tokens: &'a [Token],
    pub index: usize,
}

impl<'a> Cursor<'a> {
    /// The token itself, or the one that stands so many tokens before.
    pub fn before(self, count: usize) -> Option<&'a Token> {
        self.tokens.get(self.index.checked_sub(count)?)
    }

    /// The token that stands so many tokens behind.
    pub fn behind(self, count: usize) -> Option<&'a Token> {
        self.tokens.get(self.index.saturating_add(count))
    }

    /// The name that is assigned by the `:=` that stands there, of an array where an element is.
    pub fn target(self) -> Option<&'a Token> {
        let last = self.before(1)?;
        if !matches!(mark_of(Some(last)), Some(Mark::RBracket)) {
            return Some(last);
        }
        let open = open_before(self.tokens, self.index.checked_sub(1)?)?;
        self.tokens.get(open.checked_sub(1)?)
    }

    /// The word that begins the section in which it stands, and whether it stands in brackets or parentheses there.
    pub fn section(self) -> (Option<Mark>, bool) {
        let mut index = self.index;
        let mut is_inside = false;
        for _ in 0..self.index {
            let Some(open) = open_before(self.tokens, index) else {
                return (None, is_inside);
            };
            index = open;
            match mark_of(self.tokens.get(open)) {
                Some(Mark::LParen | Mark::LBracket) => is_inside = true,
                Some(Mark::If | Mark::Case | Mark::For) => {}
                other => return (other, is_inside),
            }
        }
        (None, is_inside)
    }

    // What a name of a connection stands for: a port behind a dot, an instance before one, and else a port of the composite itself.
    fn end(self, is_event: bool) -> Wanted {
        let is_port = matches!(mark_of(self.before(1)), Some(Mark::Dot));
        if !is_port && matches!(mark_of(self.behind(1)), Some(Mark::Dot)) {
            return Wanted::Instance;
        }
        let before = if is_port {
            self.before(3)
        } else {
            self.before(1)
        };
        // Within a composite its own outputs are where connections lead to.
        let is_target = matches!(mark_of(before), Some(Mark::To));
        match (is_event, is_target == is_port) {
            (true, true) => Wanted::EventInput,
            (true, false) => Wanted::EventOutput,
            (false, true) => Wanted::Input,
            (false, false) => Wanted::Output,
        }
    }

    /// What a name there has to stand for.
    pub fn wanted(self) -> Option<Wanted> {
        let (section, is_inside) = self.section();
        let is_called = matches!(mark_of(self.behind(1)), Some(Mark::LParen));
        match (section?, mark_of(self.before(1))) {
            (Mark::EventConnections, _) => Some(self.end(true)),
            (Mark::DataConnections, _) => Some(self.end(false)),
            (Mark::Fbs, _) if !is_inside => Some(Wanted::Type),
            (Mark::Fbs | Mark::EventInput, _) => Some(Wanted::Input),
            (Mark::EventOutput, _) => Some(Wanted::Output),
            (Mark::EcStates, Some(Mark::Arrow)) => Some(Wanted::EventOutput),
            (Mark::EcStates, _) => Some(Wanted::Algorithm),
            (Mark::EcTransitions, Some(Mark::Assign)) => Some(Wanted::EventInput),
            (Mark::EcTransitions, _) if !is_inside => Some(Wanted::State),
            (Mark::EcTransitions | Mark::Algorithm, _) if is_called => Some(Wanted::Function),
            (Mark::EcTransitions | Mark::Algorithm, _) => Some(Wanted::Variable),
            _ => None,
        }
    }
}
