//! What stands in a text's expression where its typed form has an operation, an operand or an index.
//!
//! A typed chain goes on with the operations of the chain or call that its first operand was in the text.

use fb_tree::{Constant, Expr, Literal};

/// Where an operation or an index stands, and an operand of it.
pub(crate) type Part<'a> = Option<(usize, &'a Expr)>;

// How many operations a chain or a call adds to a typed chain, and the operand that they go on behind.
fn level(source: &Expr) -> Option<(usize, &Expr)> {
    match source {
        Expr::Chain(first, links) => Some((links.len(), first)),
        Expr::Call(_, arguments) => called(arguments),
        Expr::Literal(_)
        | Expr::Variable(_)
        | Expr::Element(_, _, _)
        | Expr::Negative(_, _)
        | Expr::Inverse(_, _) => None,
    }
}

// The same of a call: MIN and MAX are one operation, and LIMIT is two.
fn called(arguments: &[Expr]) -> Option<(usize, &Expr)> {
    match arguments {
        [first, _] => Some((1, first)),
        [_, first, _] => Some((2, first)),
        _ => None,
    }
}

// The second operand of an operation that a call adds.
fn argument(arguments: &[Expr], index: usize) -> Option<&Expr> {
    match arguments {
        [_, second] => Some(second),
        [low, _, high] => Some(if index == 0 { low } else { high }),
        _ => None,
    }
}

// One of the operations that a chain or a call adds.
fn added(source: &Expr, index: usize) -> Part<'_> {
    match source {
        Expr::Chain(_, links) => {
            let link = links.get(index)?;
            Some((link.at, &link.operand))
        }
        Expr::Call(name, arguments) => Some((name.at, argument(arguments, index)?)),
        Expr::Literal(_)
        | Expr::Variable(_)
        | Expr::Element(_, _, _)
        | Expr::Negative(_, _)
        | Expr::Inverse(_, _) => None,
    }
}

// The chain or call that adds one operation of a typed chain of so many, and which of those that it adds this is.
fn level_of(source: &Expr, count: usize, index: usize) -> Option<(&Expr, usize)> {
    let mut expr = source;
    let mut left = count;
    for _ in 0..count {
        let (own, first) = level(expr)?;
        left = left.checked_sub(own)?;
        if left <= index {
            return Some((expr, index - left));
        }
        expr = first;
    }
    None
}

/// The second operand of one operation of a typed chain of so many.
pub(crate) fn operation(source: &Expr, count: usize, index: usize) -> Part<'_> {
    let (expr, own) = level_of(source, count, index)?;
    added(expr, own)
}

/// Where the chain or call begins that adds this operation.
pub(crate) fn operation_begins(source: &Expr, count: usize, index: usize) -> Option<usize> {
    let (expr, _) = level_of(source, count, index)?;
    Some(beginning(expr))
}

/// The first operand of a typed chain of so many operations.
pub(crate) fn front(source: &Expr, count: usize) -> Option<&Expr> {
    let mut expr = source;
    let mut left = count;
    for _ in 0..count {
        if left == 0 {
            return Some(expr);
        }
        let (own, first) = level(expr)?;
        left = left.checked_sub(own)?;
        expr = first;
    }
    if left == 0 { Some(expr) } else { None }
}

/// The operand of a sign, of a NOT or of a function of one argument.
pub(crate) fn operand(source: &Expr) -> Part<'_> {
    match source {
        Expr::Negative(at, inner) | Expr::Inverse(at, inner) => Some((*at, inner)),
        Expr::Call(name, arguments) => Some((name.at, arguments.first()?)),
        Expr::Literal(_) | Expr::Variable(_) | Expr::Element(_, _, _) | Expr::Chain(_, _) => None,
    }
}

/// The index of an element of an array.
pub(crate) fn index(source: &Expr) -> Part<'_> {
    match source {
        Expr::Element(_, at, inner) => Some((*at, inner)),
        Expr::Literal(_)
        | Expr::Variable(_)
        | Expr::Call(_, _)
        | Expr::Negative(_, _)
        | Expr::Inverse(_, _)
        | Expr::Chain(_, _) => None,
    }
}

// Where a literal begins, with its sign.
fn literal_begins(constant: Constant) -> usize {
    match constant.value {
        Literal::Whole(true, _) => constant.at.saturating_sub(1),
        _ => constant.at,
    }
}

/// Where an expression begins, but for parentheses.
pub(crate) fn beginning(source: &Expr) -> usize {
    match source {
        Expr::Literal(constant) => literal_begins(*constant),
        Expr::Variable(name) | Expr::Element(name, _, _) | Expr::Call(name, _) => name.at,
        Expr::Negative(at, _) | Expr::Inverse(at, _) => *at,
        Expr::Chain(first, _) => beginning(first),
    }
}

/// Where the last token of an expression begins, but for parentheses and brackets.
pub(crate) fn ending(source: &Expr) -> usize {
    match source {
        Expr::Literal(constant) => constant.at,
        Expr::Variable(name) => name.at,
        Expr::Element(_, _, inner) | Expr::Negative(_, inner) | Expr::Inverse(_, inner) => {
            ending(inner)
        }
        Expr::Call(name, arguments) => match arguments.last() {
            Some(last) => ending(last),
            None => name.at,
        },
        Expr::Chain(first, links) => match links.last() {
            Some(link) => ending(&link.operand),
            None => ending(first),
        },
    }
}
