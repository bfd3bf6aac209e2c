//! The types of expressions, by their tokens.

use crate::tokens::mark_of;
use crate::wanted::Cursor;
use fb_lex::{Kind, Token};
use fb_tree::{BlockTree, BodyTree};
use fb_words::{ElemType, Mark, TYPES};
use fbr_places::type_named;
use st_types::widens;

// The type of a variable of a block type.
fn variable_type(block: &BlockTree, name: &str) -> Option<ElemType> {
    let inside = match &block.body {
        BodyTree::Chart(chart) => type_named(&chart.internals, name),
        BodyTree::Network(_) => None,
    };
    type_named(&block.inputs, name)
        .or(type_named(&block.outputs, name))
        .or(inside)
}

// The type that a conversion gives.
fn converted(name: &str) -> Option<ElemType> {
    let (_, to) = name.rsplit_once("_TO_")?;
    for of_type in TYPES {
        if of_type.name() == to {
            return Some(of_type);
        }
    }
    None
}

/// The type that a token gives to the expression that it stands in, where it gives one.
pub fn type_of(block: Option<&BlockTree>, token: &Token) -> Option<ElemType> {
    match &token.kind {
        Kind::Typed(of_type, _, _) => Some(*of_type),
        Kind::Duration(_, _) => Some(ElemType::Time),
        Kind::Mark(
            Mark::True
            | Mark::False
            | Mark::Not
            | Mark::And
            | Mark::Ampersand
            | Mark::Or
            | Mark::Xor
            | Mark::Equal
            | Mark::NotEqual
            | Mark::Less
            | Mark::Greater
            | Mark::LessEqual
            | Mark::GreaterEqual,
        ) => Some(ElemType::Bool),
        Kind::Name(name) => converted(name.as_str()).or(variable_type(block?, name.as_str())),
        _ => None,
    }
}

// Whether a single operand ends, or begins, at a token.
fn is_edge(token: Option<&Token>) -> bool {
    matches!(
        mark_of(token),
        Some(
            Mark::If
                | Mark::Elsif
                | Mark::Assign
                | Mark::LParen
                | Mark::LBracket
                | Mark::RParen
                | Mark::RBracket
                | Mark::Then
                | Mark::Do
                | Mark::Of
                | Mark::Semicolon
        )
    )
}

// The type of the operand that a token is by itself, or that it is a number without one; nothing where it is none.
fn operand(block: Option<&BlockTree>, token: Option<&Token>) -> Option<Option<ElemType>> {
    match &token?.kind {
        Kind::Name(name) => Some(Some(variable_type(block?, name.as_str())?)),
        Kind::Mark(Mark::True | Mark::False) => Some(Some(ElemType::Bool)),
        Kind::Mark(_) => None,
        _ => Some(type_of(block, token?)),
    }
}

/// The types of the two operands of an operator, where each is one token and nothing else stands beside it.
pub fn operands(
    block: Option<&BlockTree>,
    place: Cursor<'_>,
) -> Option<(Option<ElemType>, Option<ElemType>)> {
    if is_edge(place.before(2)) && is_edge(place.behind(2)) {
        Some((
            operand(block, place.before(1))?,
            operand(block, place.behind(1))?,
        ))
    } else {
        None
    }
}

// The wider one of two types; BOOL where the second is.
fn wider(one: Option<ElemType>, other: Option<ElemType>) -> Option<ElemType> {
    match (one, other) {
        (None, _) => other,
        (_, None) | (Some(ElemType::Bool), _) => one,
        (Some(first), Some(second)) => {
            if matches!(second, ElemType::Bool) || widens(first, second) {
                other
            } else {
                one
            }
        }
    }
}

/// The type of the expression that begins behind a place; nothing where it is of numbers alone. Indices, and what conversions convert, do not count.
pub fn expression_type(block: Option<&BlockTree>, place: Cursor<'_>) -> Option<ElemType> {
    let mut found = None;
    let mut skipped: usize = 0;
    let mut is_conversion = false;
    let first = place.index.saturating_add(1);
    for token in place.tokens.get(first..).unwrap_or(&[]) {
        match mark_of(Some(token)) {
            Some(Mark::LParen | Mark::LBracket) if skipped > 0 => {
                skipped = skipped.saturating_add(1);
            }
            Some(Mark::RParen | Mark::RBracket) if skipped > 0 => {
                skipped = skipped.saturating_sub(1);
            }
            _ if skipped > 0 => {}
            Some(Mark::LBracket) => skipped = 1,
            Some(Mark::LParen) if is_conversion => skipped = 1,
            Some(Mark::Semicolon | Mark::Then | Mark::Do | Mark::Of | Mark::RBracket) => {
                return found;
            }
            _ => found = wider(found, type_of(block, token)),
        }
        is_conversion = match &token.kind {
            Kind::Name(name) => converted(name.as_str()).is_some(),
            _ => false,
        };
    }
    found
}
