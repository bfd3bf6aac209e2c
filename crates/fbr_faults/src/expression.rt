//! Divisors and indexes at fault.

use crate::found::{Fault, Wrong};
use crate::origin::Origin;
use fb_ranges::{Ranges, is_between, range};
use fb_ranges_intervals::Interval;
use fb_words::{Operation, Operator};
use st_types::{TypedExpr, TypedLink};
use std::alloc::AllocError;

/// An array, with its lowest and highest index.
#[derive(Clone, Copy)]
pub(crate) struct Array<'a> {
    pub name: &'a String,
    pub low: i64,
    pub high: i64,
}

/// An index that may lie outside of an array.
pub(crate) fn index_fault(
    at: usize,
    array: Array<'_>,
    index: Interval,
) -> Result<Option<Fault>, AllocError> {
    if is_between(index, array.low, array.high) {
        return Ok(None);
    }
    Ok(Some(Fault {
        at,
        wrong: Wrong::Index(array.name.clone()?, index, array.low, array.high),
    }))
}

// A divisor that may be 0.
fn divisor_fault(at: usize, operation: Operation, second: Interval) -> Option<Fault> {
    if !matches!(operation, Operation::Infix(Operator::Over)) {
        return None;
    }
    if 0 < second.low || second.high < 0 {
        return None;
    }
    Some(Fault {
        at,
        wrong: Wrong::Divisor(second),
    })
}

/// The first fault of an expression.
#[cycle(finding)]
pub(crate) fn expression_fault(
    expr: &TypedExpr,
    origin: Origin<'_>,
    ranges: &Ranges,
) -> Result<Option<Fault>, AllocError> {
    match expr {
        TypedExpr::Constant(_) | TypedExpr::Read(_) => Ok(None),
        TypedExpr::Unary(_, _, operand) => expression_fault(operand, origin.operand(), ranges),
        TypedExpr::Element(name, low, high, index) => {
            let inner = origin.index();
            let array = Array {
                name: &name.name,
                low: *low,
                high: *high,
            };
            match expression_fault(index, inner, ranges)? {
                Some(fault) => Ok(Some(fault)),
                None => index_fault(inner.at, array, range(index, ranges).range),
            }
        }
        TypedExpr::Chain(first, links) => {
            match expression_fault(first, origin.front(links.len()), ranges)? {
                Some(fault) => Ok(Some(fault)),
                None => links_fault(links, origin, ranges),
            }
        }
    }
}

// The first fault of the operations behind a first operand.
#[cycle(finding)]
fn links_fault(
    links: &[TypedLink],
    origin: Origin<'_>,
    ranges: &Ranges,
) -> Result<Option<Fault>, AllocError> {
    for (i, link) in links.iter().enumerate() {
        let inner = origin.operation(links.len(), i);
        if let Some(fault) = expression_fault(&link.operand, inner, ranges)? {
            return Ok(Some(fault));
        }
        let second = range(&link.operand, ranges).range;
        if let Some(fault) = divisor_fault(inner.at, link.operation, second) {
            return Ok(Some(fault));
        }
    }
    Ok(None)
}
