//! What is read by itself in a list.

use fb_lex::Token;
use fb_read::{Stop, expect, next_is, read_type};
use fb_text::{Item, separated};
use fb_tree::{
    BoundsTree, ConnectionTree, EventTree, InstanceTree, Name, StateTree, TransitionTree,
    VariableTree,
};
use fb_words::Mark;
use st_parse::integer;
use std::alloc::Global;

/// An item of a section.
pub trait Piece: Drop {
    /// Whether it declares names.
    fn declares() -> bool;

    /// Reads it, and gives the tokens behind it.
    fn read_piece(alloc: Global, tokens: &[Token]) -> Result<(Self, &[Token]), Stop>;
}

impl Piece for EventTree {
    fn declares() -> bool {
        true
    }

    fn read_piece(alloc: Global, tokens: &[Token]) -> Result<(EventTree, &[Token]), Stop> {
        EventTree::read(alloc, tokens)
    }
}

impl Piece for VariableTree {
    fn declares() -> bool {
        true
    }

    fn read_piece(alloc: Global, tokens: &[Token]) -> Result<(VariableTree, &[Token]), Stop> {
        VariableTree::read(alloc, tokens)
    }
}

impl Piece for TransitionTree {
    fn declares() -> bool {
        false
    }

    fn read_piece(alloc: Global, tokens: &[Token]) -> Result<(TransitionTree, &[Token]), Stop> {
        TransitionTree::read(alloc, tokens)
    }
}

impl Piece for StateTree {
    fn declares() -> bool {
        true
    }

    fn read_piece(alloc: Global, tokens: &[Token]) -> Result<(StateTree, &[Token]), Stop> {
        StateTree::read(alloc, tokens)
    }
}

impl Piece for InstanceTree {
    fn declares() -> bool {
        true
    }

    fn read_piece(alloc: Global, tokens: &[Token]) -> Result<(InstanceTree, &[Token]), Stop> {
        InstanceTree::read(alloc, tokens)
    }
}

impl Piece for ConnectionTree {
    fn declares() -> bool {
        false
    }

    fn read_piece(alloc: Global, tokens: &[Token]) -> Result<(ConnectionTree, &[Token]), Stop> {
        ConnectionTree::read(alloc, tokens)
    }
}

/// Internal variables of one type, which may be arrays.
#[derive(Drop)]
pub struct Internal {
    pub tree: VariableTree,
}

// The lowest and the highest index of an array, behind ARRAY.
fn bounds(tokens: &[Token]) -> Result<(BoundsTree, &[Token]), Stop> {
    let rest = expect(tokens, Mark::LBracket)?;
    let (low, rest) = integer(rest)?;
    let rest = expect(rest, Mark::DotDot)?;
    let (high, rest) = integer(rest)?;
    let rest = expect(rest, Mark::RBracket)?;
    Ok((BoundsTree { low, high }, rest))
}

// Arrays that have these names, behind ARRAY.
fn array(names: Vec<Name>, tokens: &[Token]) -> Result<(Internal, &[Token]), Stop> {
    let (bounds, rest) = bounds(tokens)?;
    let rest = expect(rest, Mark::Of)?;
    let (of_type, rest) = read_type(rest)?;
    let rest = expect(rest, Mark::Semicolon)?;
    let tree = VariableTree {
        names,
        bounds: Some(bounds),
        of_type,
        start: None,
    };
    Ok((Internal { tree }, rest))
}

impl Piece for Internal {
    fn declares() -> bool {
        true
    }

    fn read_piece(alloc: Global, tokens: &[Token]) -> Result<(Internal, &[Token]), Stop> {
        let (names, rest) = separated::<Name>(alloc, tokens, Mark::Comma)?;
        let rest = expect(rest, Mark::Colon)?;
        if next_is(rest, Mark::Array) {
            return array(names, expect(rest, Mark::Array)?);
        }
        let (tree, rest) = VariableTree::read(alloc, tokens)?;
        Ok((Internal { tree }, rest))
    }
}
