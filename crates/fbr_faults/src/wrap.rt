//! Arithmetic whose exact result may lie outside of its type, so that it wraps.

use crate::origin::Origin;
use crate::shape::{beginning, ending};
use fb_ranges::{Interval, Ranges, range};
use fb_ranges_intervals::{range_two, whole};
use fb_words::{ElemType, Operation, Operator};
use st_types::{TypedExpr, TypedLink};
use std::alloc::AllocError;

/// An operation that may wrap: the bytes at which its operator stands, its first operand's first token and its last operand's last one, but for parentheses;
/// from where to where its exact result is; its type; and whether an operand has all numbers of that type.
#[derive(Clone, Copy)]
pub struct Wrap {
    pub at: usize,
    pub first: usize,
    pub last: usize,
    pub low: i128,
    pub high: i128,
    pub of_type: ElemType,
    pub is_vague: bool,
}

// Numbers from one to another.
type Exact = Option<(i128, i128)>;

fn product(a: i64, b: i64) -> i128 {
    i128::from(a) * i128::from(b)
}

// The products.
fn products(r: Interval, s: Interval) -> Exact {
    let one = product(r.low, s.low);
    let two = product(r.low, s.high);
    let three = product(r.high, s.low);
    let four = product(r.high, s.high);
    Some((
        one.min(two).min(three.min(four)),
        one.max(two).max(three.max(four)),
    ))
}

// From where to where the exact result of an operation on two operands is; nothing where it cannot wrap.
fn exact_two(operation: Operation, r: Interval, s: Interval) -> Exact {
    match operation {
        Operation::Infix(Operator::Plus) => Some((
            i128::from(r.low) + i128::from(s.low),
            i128::from(r.high) + i128::from(s.high),
        )),
        Operation::Infix(Operator::Minus) => Some((
            i128::from(r.low) - i128::from(s.high),
            i128::from(r.high) - i128::from(s.low),
        )),
        Operation::Infix(Operator::Times) => products(r, s),
        _ => None,
    }
}

// The same of one operand. That a conversion may wrap it says itself.
fn exact_one(operation: Operation, r: Interval) -> Exact {
    let low = i128::from(r.low);
    let high = i128::from(r.high);
    match operation {
        Operation::Negate => Some((-high, -low)),
        Operation::Abs => Some((low.min(0), high.max(-low))),
        _ => None,
    }
}

// Whether a range is all numbers of a type.
fn is_whole(r: Interval, of: ElemType) -> bool {
    r.low == of.lowest() && r.high == of.highest()
}

// Notes an operation, where its result may leave its type.
fn add(found: &mut Vec<Wrap>, wrap: Wrap) -> Result<(), AllocError> {
    let low = i128::from(wrap.of_type.lowest());
    let high = i128::from(wrap.of_type.highest());
    if low <= wrap.low && wrap.high <= high {
        return Ok(());
    }
    found.push(wrap)?;
    Ok(())
}

// Notes an operation on one operand.
fn add_one(
    operation: Operation,
    of_type: ElemType,
    r: Interval,
    origin: Origin<'_>,
    found: &mut Vec<Wrap>,
) -> Result<(), AllocError> {
    let Some((low, high)) = exact_one(operation, r) else {
        return Ok(());
    };
    let wrap = Wrap {
        at: origin.source.map_or(origin.at, beginning),
        first: origin.source.map_or(origin.at, beginning),
        last: origin.source.map_or(origin.at, ending),
        low,
        high,
        of_type,
        is_vague: is_whole(r, of_type),
    };
    add(found, wrap)
}

/// Notes the operations of an expression that may wrap in certain ranges.
#[cycle(wrapping)]
pub(crate) fn expression_wraps(
    expr: &TypedExpr,
    origin: Origin<'_>,
    ranges: &Ranges,
    found: &mut Vec<Wrap>,
) -> Result<(), AllocError> {
    match expr {
        TypedExpr::Constant(_) | TypedExpr::Read(_) => Ok(()),
        TypedExpr::Element(_, _, _, index) => {
            expression_wraps(index, origin.index(), ranges, found)
        }
        TypedExpr::Unary(operation, of_type, operand) => {
            expression_wraps(operand, origin.operand(), ranges, found)?;
            let r = range(operand, ranges).range;
            add_one(*operation, *of_type, r, origin, found)
        }
        TypedExpr::Chain(first, links) => {
            expression_wraps(first, origin.front(links.len()), ranges, found)?;
            links_wraps(range(first, ranges).range, links, origin, ranges, found)
        }
    }
}

// The same of the operations behind a first operand.
#[cycle(wrapping)]
fn links_wraps(
    first: Interval,
    links: &[TypedLink],
    origin: Origin<'_>,
    ranges: &Ranges,
    found: &mut Vec<Wrap>,
) -> Result<(), AllocError> {
    let mut all = first;
    for (i, link) in links.iter().enumerate() {
        let inner = origin.operation(links.len(), i);
        expression_wraps(&link.operand, inner, ranges, found)?;
        let second = range(&link.operand, ranges).range;
        if let Some((low, high)) = exact_two(link.operation, all, second) {
            let wrap = Wrap {
                at: inner.at,
                first: origin.begins(links.len(), i),
                last: inner.source.map_or(inner.at, ending),
                low,
                high,
                of_type: link.of_type,
                is_vague: is_whole(all, link.of_type) || is_whole(second, link.of_type),
            };
            add(found, wrap)?;
        }
        all = range_two(link.operation, link.of_type, all, second).unwrap_or(whole(link.of_type));
    }
    Ok(())
}
