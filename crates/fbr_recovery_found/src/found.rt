//! Faults that are found.

use fb_faults::{TextFault, TypeFault};
use fb_lex::Token;
use fb_words::Mark;
use fbr_advice::tokens::{index_at, mark_of, name_of};
use indexmap::IndexSet;
use std::alloc::{AllocError, Global};
use std::mem;

/// The most faults that are told.
pub const MOST: usize = 100;

// So many tokens around a fault are looked at.
const AROUND: usize = 256;

/// A fault of a text: of its form, or of its types.
#[derive(Drop)]
pub enum Mistake {
    Text(TextFault),
    Typing(TypeFault),
}

/// The fault of a number at a byte; nothing where the number is none of a text.
pub fn mistake_of(code: u8, at: usize) -> Option<Mistake> {
    let typing = match code {
        1 => return Some(Mistake::Text(TextFault::BadCharacter(at))),
        2 => return Some(Mistake::Text(TextFault::Syntax(at))),
        3 => return Some(Mistake::Text(TextFault::TooDeep(at))),
        5 => return Some(Mistake::Text(TextFault::BigNumber(at))),
        10 => TypeFault::UnknownName(at),
        11 => TypeFault::DuplicateName(at),
        12 => TypeFault::TypeMismatch(at),
        13 => TypeFault::BadLiteral(at),
        14 => TypeFault::NotWritable(at),
        15 => TypeFault::BadConnection(at),
        16 => TypeFault::TwoSources(at),
        17 => TypeFault::BadService(at),
        18 => TypeFault::RecursiveComposite(at),
        19 => TypeFault::Limit(at),
        20 => TypeFault::ChannelShape(at),
        _ => return None,
    };
    Some(Mistake::Typing(typing))
}

// Where what is not well typed is at fault; nothing where memory ran out.
fn place_of(fault: &TypeFault) -> Option<usize> {
    match fault {
        TypeFault::OutOfMemory => None,
        TypeFault::UnknownName(at)
        | TypeFault::DuplicateName(at)
        | TypeFault::TypeMismatch(at)
        | TypeFault::BadLiteral(at)
        | TypeFault::NotWritable(at)
        | TypeFault::BadConnection(at)
        | TypeFault::TwoSources(at)
        | TypeFault::BadService(at)
        | TypeFault::RecursiveComposite(at)
        | TypeFault::Limit(at)
        | TypeFault::ChannelShape(at) => Some(*at),
    }
}

/// Faults that were found so far, and the names of a declaration that are in doubt: those of parts that were not read, and those that are declared twice. What is at
/// fault beside such a name may be right once the other fault is mended.
#[derive(Drop)]
pub struct Found<'t> {
    pub alloc: Global,
    pub tokens: &'t [Token],
    /// At which bytes characters were that begin no token, in order.
    pub broken: &'t [usize],
    /// The place of each fault, and its number.
    pub places: Vec<(usize, u8)>,
    pub doubts: IndexSet<String>,
    /// Whether something is declared whose name cannot be read: then a name that is unknown may be right.
    pub is_nameless: bool,
    /// Names of the declaration that are unknown, and of which this was told.
    pub told: IndexSet<String>,
    /// Names that are in doubt in all declarations: those of types.
    pub types: IndexSet<String>,
}

// Whether what is before a token, or behind it, is another part of a declaration.
fn is_edge(token: Option<&Token>) -> bool {
    match mark_of(token) {
        Some(
            Mark::Semicolon
            | Mark::Then
            | Mark::Else
            | Mark::Elsif
            | Mark::Do
            | Mark::If
            | Mark::Case
            | Mark::Of
            | Mark::Fbs
            | Mark::EcStates
            | Mark::EcTransitions
            | Mark::EventConnections
            | Mark::DataConnections,
        ) => true,
        Some(_) => false,
        None => token.is_none(),
    }
}

impl<'t> Found<'t> {
    /// Adds a fault.
    pub fn add(&mut self, code: u8, at: usize) -> Result<(), AllocError> {
        self.places.push((at, code))?;
        Ok(())
    }

    /// Puts a name in doubt.
    pub fn doubt(&mut self, name: &str) -> Result<(), AllocError> {
        if !self.doubts.contains(name) {
            self.doubts.insert(String::from_str(self.alloc, name)?)?;
        }
        Ok(())
    }

    /// Puts the names of tokens in doubt, from the first of these numbers to before the last.
    pub fn doubt_all(&mut self, from: usize, to: usize) -> Result<(), AllocError> {
        let tokens = self.tokens;
        for token in tokens.get(from..to).unwrap_or(&[]) {
            if let Some(name) = name_of(Some(token)) {
                self.doubt(name)?;
            }
        }
        Ok(())
    }

    /// Puts the names of tokens in doubt as those of types.
    pub fn doubt_types(&mut self, from: usize, to: usize) -> Result<(), AllocError> {
        let tokens = self.tokens;
        for token in tokens.get(from..to).unwrap_or(&[]) {
            if let Some(name) = name_of(Some(token)) {
                if !self.types.contains(name) {
                    self.types.insert(String::from_str(self.alloc, name)?)?;
                }
            }
        }
        Ok(())
    }

    // Whether a token is a name in doubt.
    fn is_doubted(&self, token: Option<&Token>) -> bool {
        match name_of(token) {
            Some(name) => self.doubts.contains(name),
            None => false,
        }
    }

    // Whether a name in doubt is in the part of the declaration in which a byte is.
    fn is_doubtful(&self, at: usize) -> bool {
        if self.doubts.is_empty() {
            return false;
        }
        let index = index_at(self.tokens, at);
        for step in 0..AROUND {
            let token = self.tokens.get(index.saturating_add(step));
            if self.is_doubted(token) {
                return true;
            }
            if step > 0 && is_edge(token) {
                break;
            }
        }
        for step in 1..AROUND {
            let token = match index.checked_sub(step) {
                Some(before) => self.tokens.get(before),
                None => None,
            };
            if is_edge(token) {
                return false;
            }
            if self.is_doubted(token) {
                return true;
            }
        }
        false
    }

    // Whether the unknown name at a byte was told in this declaration before. It is from now on.
    fn is_told(&mut self, at: usize) -> Result<bool, AllocError> {
        let tokens = self.tokens;
        match name_of(tokens.get(index_at(tokens, at))) {
            Some(name) if self.told.contains(name) => Ok(true),
            Some(name) => {
                self.told.insert(String::from_str(self.alloc, name)?)?;
                Ok(false)
            }
            None => Ok(false),
        }
    }

    /// Begins a declaration, in which these names are in doubt; and gives those of the one before it.
    pub fn begin(&mut self, doubts: IndexSet<String>) -> IndexSet<String> {
        self.told = IndexSet::new(self.alloc);
        self.is_nameless = false;
        mem::replace(&mut self.doubts, doubts)
    }

    /// Adds the fault of a port's name that is unknown, as `typing` does, where the names of the declaration itself are not asked for.
    pub fn port(&mut self, fault: TypeFault) -> Result<(), AllocError> {
        let is_nameless = mem::replace(&mut self.is_nameless, false);
        let added = self.typing(fault);
        self.is_nameless = is_nameless;
        added
    }

    /// Adds a fault of types, unless it may follow from another one. A name that is unknown is told once in a declaration.
    pub fn typing(&mut self, fault: TypeFault) -> Result<(), AllocError> {
        let Some(at) = place_of(&fault) else {
            return Err(AllocError);
        };
        if self.is_doubtful(at) {
            return Ok(());
        }
        if fault.code() == 10 && (self.is_nameless || self.is_told(at)?) {
            return Ok(());
        }
        self.add(fault.code(), at)
    }

    /// Whether a character that begins no token is behind a byte, or at it, and not behind another one.
    pub fn is_broken(&self, from: usize, to: usize) -> bool {
        let mut low: usize = 0;
        let mut high: usize = self.broken.len();
        for _ in 0..64 {
            if low < high {
                let middle = low.saturating_add(high.saturating_sub(low) / 2);
                match self.broken.get(middle) {
                    Some(at) if *at < from => low = middle.saturating_add(1),
                    _ => high = middle,
                }
            }
        }
        match self.broken.get(low) {
            Some(at) => *at <= to,
            None => false,
        }
    }
}
