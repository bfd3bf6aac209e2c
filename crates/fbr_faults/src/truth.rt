//! Whether a guard can hold: what its parts leave of the ranges of variables.

use crate::relation::Front;
use crate::tried::Tried;
use fb_ranges::{Ranges, copied, range};
use fb_words::{Operation, Operator};
use st_types::{TypedExpr, TypedLink};
use std::alloc::{AllocError, Global};

/// Whether a condition may be TRUE, and whether it may be FALSE.
#[derive(Clone, Copy)]
pub(crate) struct Truth {
    pub may_hold: bool,
    pub may_fail: bool,
}

impl Truth {
    /// Nothing is known.
    pub(crate) fn open() -> Truth {
        Truth {
            may_hold: true,
            may_fail: true,
        }
    }

    // That of the opposite.
    fn turned(self) -> Truth {
        Truth {
            may_hold: self.may_fail,
            may_fail: self.may_hold,
        }
    }

    // That of AND or OR, where the other operand was looked at in the ranges that the first leaves.
    fn joined(self, other: Truth, is_and: bool) -> Truth {
        if is_and {
            Truth {
                may_hold: self.may_hold && other.may_hold,
                may_fail: self.may_fail || other.may_fail,
            }
        } else {
            Truth {
                may_hold: self.may_hold || other.may_hold,
                may_fail: self.may_fail && other.may_fail,
            }
        }
    }
}

// That of a truth value which lies in the range of an expression.
fn ranged(expr: &TypedExpr, ranges: &Ranges) -> Truth {
    let range = range(expr, ranges).range;
    Truth {
        may_hold: range.high > 0,
        may_fail: range.low <= 0,
    }
}

// Whether an operation is AND, and whether it is OR, if it is one of them.
fn joining(operation: Operation) -> Option<bool> {
    match operation {
        Operation::Infix(Operator::And) => Some(true),
        Operation::Infix(Operator::Or) => Some(false),
        _ => None,
    }
}

// What is so of a condition in the ranges that are tried, which are the same afterwards.
#[cycle(truth)]
fn truth_of<'e>(expr: &'e TypedExpr, tried: &mut Tried<'e>) -> Result<Truth, AllocError> {
    match expr {
        TypedExpr::Constant(_) | TypedExpr::Read(_) | TypedExpr::Element(_, _, _, _) => {
            Ok(ranged(expr, &tried.ranges))
        }
        TypedExpr::Unary(Operation::Not, _, operand) => Ok(truth_of(operand, tried)?.turned()),
        TypedExpr::Unary(_, _, _) => Ok(Truth::open()),
        TypedExpr::Chain(first, links) => chain_truth(first, links, tried),
    }
}

// The same of operations that group to the left: what stands before AND holds where its operand is looked at, and what stands before OR fails there.
#[cycle(truth)]
fn chain_truth<'e>(
    first: &'e TypedExpr,
    links: &'e [TypedLink],
    tried: &mut Tried<'e>,
) -> Result<Truth, AllocError> {
    let mark = tried.mark();
    let mut front = Front {
        range: range(first, &tried.ranges).range,
        truth: truth_of(first, tried)?,
    };
    let mut held = None;
    let mut at: usize = 0;
    for link in links {
        let joins = joining(link.operation);
        if joins.is_none() || joins != held {
            tried.undo(mark)?;
        }
        match joins {
            Some(holds) => {
                if joins != held {
                    tried.assume_chain(first, links, at, holds)?;
                }
                let next = truth_of(&link.operand, tried)?;
                tried.assume(&link.operand, holds)?;
                front = Front::of(front.truth.joined(next, holds));
            }
            None => front = front.with(link, &tried.ranges),
        }
        held = joins;
        at = at.saturating_add(1);
    }
    tried.undo(mark)?;
    Ok(front.truth)
}

/// Whether a guard can hold where its variables lie in their rows.
pub fn guard_can_hold(alloc: Global, guard: &TypedExpr, rows: &Ranges) -> Result<bool, AllocError> {
    let mut tried = Tried::of(alloc, copied(rows)?);
    Ok(truth_of(guard, &mut tried)?.may_hold)
}
