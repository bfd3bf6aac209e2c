//! Ranges of expressions.

ghost use Rattle.std.specs.Prelude.{◌≡◌, map, if◌then◌else◌, None, Some, string_bytes};
ghost use Rattle.std.specs.Option.{option_map, unwrap_or};
ghost use Rattle.fb_model.specs.Clear as book;
ghost use Rattle.fb_model.specs.Language.{given};
ghost use Rattle.fb_model.specs.Spans as spans;
ghost use Rattle.fb_model.specs.Spans.{within, span};
ghost use Rattle.fb_model.specs.Asking.{range_in};
ghost use Rattle.st_types.specs.Views.{term_of, tail_of};
ghost use Rattle.fb_ranges_intervals.specs.Views.{span_of};
ghost use Rattle.fb_ranges.specs.Views.{clear_range, linked, linked_in, spans_of};

use crate::rows::Ranges;
use fb_ranges_intervals::{Interval, range_one, range_two, whole};
use fb_words::{ElemType, Operation};
use st_types::{TypedExpr, TypedLink, VariableName};

/// The range of an expression, in which a division at fault counts as its whole type; and whether it is clear: no divisor in it may be zero
/// and no index out of bounds.
#[derive(Clone, Copy)]
pub struct Ranged {
    pub range: Interval,
    pub is_clear: bool,
}

/// Whether a range lies between the lowest and the highest index of an array.
pub fn is_between(index: Interval, low: i64, high: i64) -> bool
    ensures { result ≡ within (span_of index) (span low high) }
{
    low <= index.low && index.high <= high
}

// An element of an array, by its index.
fn element(name: &VariableName, low: i64, high: i64, index: Ranged, ranges: &Ranges) -> Ranged
    ensures range { span_of result.range ≡ spans_of ranges.now (string_bytes name.now.name) }
    ensures clear { clear_range result ≡ given (clear_range index) (λ r. if within r (span low high) then Some (spans_of ranges.now (string_bytes name.now.name)) else None) }
{
    let is_clear = if index.is_clear {
        is_between(index.range, low, high)
    } else {
        false
    };
    Ranged {
        range: ranges.find_at(name),
        is_clear,
    }
}

// What an operation gives, if it gives something, on operands that are clear or not.
fn given(found: Option<Interval>, of: ElemType, is_clear: bool) -> Ranged
    ensures range { span_of result.range ≡ unwrap_or (option_map span_of found) (spans.whole of) }
    ensures clear { clear_range result ≡ (if is_clear then option_map span_of found else None) }
{
    match found {
        Some(range) => Ranged { range, is_clear },
        None => Ranged {
            range: whole(of),
            is_clear: false,
        },
    }
}

// An operation on one operand.
fn applied(operation: Operation, of: ElemType, operand: Ranged) -> Ranged
    ensures range { span_of result.range ≡ unwrap_or (spans.range_one operation of (span_of operand.range)) (spans.whole of) }
    ensures clear { clear_range result ≡ given (clear_range operand) (spans.range_one operation of) }
{
    let found = range_one(operation, of, operand.range);
    given(found, of, operand.is_clear)
}

// An operation on two operands.
fn combined(operation: Operation, of: ElemType, first: Ranged, second: Ranged) -> Ranged
    ensures range { span_of result.range ≡ unwrap_or (spans.range_two operation of (span_of first.range) (span_of second.range)) (spans.whole of) }
    ensures clear { clear_range result ≡ given (clear_range first) (λ r. given (clear_range second) (spans.range_two operation of r)) }
{
    let found = range_two(operation, of, first.range, second.range);
    let are_clear = if first.is_clear {
        second.is_clear
    } else {
        false
    };
    given(found, of, are_clear)
}

/// The range of an expression, and whether it is clear.
#[cycle(ranging)]
pub fn range(expr: &TypedExpr, ranges: &Ranges) -> Ranged
    ensures range { span_of result.range ≡ range_in (term_of expr.now) (spans_of ranges.now) }
    ensures clear { clear_range result ≡ book.range_of (term_of expr.now) (spans_of ranges.now) }
{
    match expr {
        TypedExpr::Constant(number) => Ranged {
            range: Interval {
                low: *number,
                high: *number,
            },
            is_clear: true,
        },
        TypedExpr::Read(name) => Ranged {
            range: ranges.find_at(name),
            is_clear: true,
        },
        TypedExpr::Element(name, low, high, index) => {
            let index = range(index, ranges);
            element(name, *low, *high, index, ranges)
        }
        TypedExpr::Unary(operation, of, operand) => {
            let operand = range(operand, ranges);
            applied(*operation, *of, operand)
        }
        TypedExpr::Chain(first, links) => {
            let first = range(first, ranges);
            range_links(first, links, ranges)
        }
    }
}

// Operations behind a first operand, each with its second.
#[cycle(ranging)]
fn range_links(first: Ranged, links: &[TypedLink], ranges: &Ranges) -> Ranged
    ensures range { span_of result.range ≡ linked_in (spans_of ranges.now) (map tail_of links.now) (span_of first.range) }
    ensures clear { clear_range result ≡ given (clear_range first) (linked (spans_of ranges.now) (map tail_of links.now)) }
{
    let mut all = first;
    for link in links {
        let operand = range(&link.operand, ranges);
        all = combined(link.operation, link.of_type, all, operand);
    }
    all
}
