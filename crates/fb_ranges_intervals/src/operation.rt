//! Ranges of the results of operations.

ghost use Rattle.std.specs.Prelude.{◌≡◌, None, Some, if◌then◌else◌, int_div};
ghost use Rattle.std.specs.Option.{option_map};
ghost use Rattle.fb_words.specs.declared.operator.Operation.TheVariants.{Convert, Infix};
ghost use Rattle.fb_model.specs.Spans as book;
ghost use Rattle.fb_ranges_intervals.specs.Views.{span_of};

use crate::interval::Interval;
use crate::result::{
    differences, exact, maxima, minima, opposites, products, quotients, rests, sizes, sums,
};
use crate::span::{fitted, holds_zero, joined, truth};
use fb_words::{ElemType, Operation, Operator};

fn converted(from: ElemType, to: ElemType, of: ElemType, r: Interval) -> Option<Interval>
    ensures { book.range_one (Convert from to) of (span_of r) ≡ option_map span_of result }
{
    match from {
        ElemType::Bool => Some(fitted(to, exact(joined(truth(), r)))),
        _ => Some(fitted(to, exact(r))),
    }
}

/// The results of an operation on one operand of a type; none where it takes no single operand.
pub fn range_one(operation: Operation, of: ElemType, r: Interval) -> Option<Interval>
    ensures { book.range_one operation of (span_of r) ≡ option_map span_of result }
{
    match operation {
        Operation::Negate => Some(fitted(of, opposites(r))),
        Operation::Abs => Some(fitted(of, sizes(r))),
        Operation::Not => Some(truth()),
        Operation::Convert(from, to) => converted(from, to, of, r),
        Operation::Infix(_) | Operation::Min | Operation::Max | Operation::Limit => None,
    }
}

fn divided(of: ElemType, r: Interval, s: Interval) -> Option<Interval>
    ensures { (if book.holds_zero (span_of s) then None else Some (book.fitted of (book.corners int_div (span_of r) (span_of s)))) ≡ option_map span_of result }
{
    if holds_zero(s) {
        return None;
    }
    Some(fitted(of, quotients(r, s)))
}

fn range_infix(operator: Operator, of: ElemType, r: Interval, s: Interval) -> Option<Interval>
    ensures { book.range_two (Infix operator) of (span_of r) (span_of s) ≡ option_map span_of result }
{
    match operator {
        Operator::Plus => Some(fitted(of, sums(r, s))),
        Operator::Minus => Some(fitted(of, differences(r, s))),
        Operator::Times => Some(fitted(of, products(r, s))),
        Operator::Over => divided(of, r, s),
        Operator::Modulo => Some(fitted(of, rests(r, s))),
        Operator::Or
        | Operator::Xor
        | Operator::And
        | Operator::Equal
        | Operator::NotEqual
        | Operator::Less
        | Operator::Greater
        | Operator::LessEqual
        | Operator::GreaterEqual => Some(truth()),
    }
}

/// The results of an operation on two operands of a type; none where a divisor may be zero, or where it does not take two.
pub fn range_two(operation: Operation, of: ElemType, r: Interval, s: Interval) -> Option<Interval>
    ensures { book.range_two operation of (span_of r) (span_of s) ≡ option_map span_of result }
{
    match operation {
        Operation::Infix(operator) => range_infix(operator, of, r, s),
        Operation::Min => Some(minima(r, s)),
        Operation::Max => Some(maxima(r, s)),
        Operation::Negate
        | Operation::Not
        | Operation::Abs
        | Operation::Limit
        | Operation::Convert(_, _) => None,
    }
}
