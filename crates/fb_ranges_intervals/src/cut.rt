//! Ranges where a relation to a number holds.

ghost use Rattle.std.specs.Prelude.{◌≡◌, ◌≤ℤ◌, ◌+ℤ◌, ◌-ℤ◌, ◌&&◌, int_le, pos, if◌then◌else◌};
ghost use Rattle.fb_words.specs.declared.elem_type.ElemType.TheVariants as t;
ghost use Rattle.fb_model.specs.Values.{lowest, highest};
ghost use Rattle.fb_model.specs.Clear as book;
ghost use Rattle.fb_model.specs.Spans.{span};
ghost use Rattle.fb_ranges_intervals.specs.Views.{span_of};

use crate::interval::Interval;
use fb_words::{ElemType, Operator};

// A cut that leaves nothing is not made.
fn cut(low: i128, high: i128, r: Interval) -> Interval
    requires low { lowest t.Lint ≤ℤ low }
    requires high { high ≤ℤ highest t.Lint }
    ensures { span_of result ≡ book.cut (span low high) (span_of r) }
{
    if high < low {
        return r;
    }
    Interval {
        low: low as i64,
        high: high as i64,
    }
}

fn at_most(number: i128, r: Interval) -> Interval
    ensures { span_of result ≡ book.at_most number (span_of r) }
{
    cut(i128::from(r.low), i128::from(r.high).min(number), r)
}

fn at_least(number: i128, r: Interval) -> Interval
    ensures { span_of result ≡ book.at_least number (span_of r) }
{
    cut(i128::from(r.low).max(number), i128::from(r.high), r)
}

fn just(number: i64, r: Interval) -> Interval
    ensures { span_of result ≡ book.just number (span_of r) }
{
    cut(
        i128::from(r.low.max(number)),
        i128::from(r.high.min(number)),
        r,
    )
}

fn low_without(number: i64, low: i64) -> i128
    ensures value { result ≡ (if int_le low number && int_le number low then low +ℤ pos 1 else low) }
    ensures least { low ≤ℤ result }
{
    if low == number {
        return i128::from(low) + 1;
    }
    i128::from(low)
}

fn high_without(number: i64, high: i64) -> i128
    ensures value { result ≡ (if int_le high number && int_le number high then high -ℤ pos 1 else high) }
    ensures most { result ≤ℤ high }
{
    if high == number {
        return i128::from(high) - 1;
    }
    i128::from(high)
}

fn without(number: i64, r: Interval) -> Interval
    ensures { span_of result ≡ book.without number (span_of r) }
{
    cut(low_without(number, r.low), high_without(number, r.high), r)
}

/// The range of a variable where it stands in the relation to the number.
pub fn meets(operator: Operator, number: i64, r: Interval) -> Interval
    ensures { span_of result ≡ book.meets operator number (span_of r) }
{
    match operator {
        Operator::Less => at_most(i128::from(number) - 1, r),
        Operator::LessEqual => at_most(i128::from(number), r),
        Operator::Greater => at_least(i128::from(number) + 1, r),
        Operator::GreaterEqual => at_least(i128::from(number), r),
        Operator::Equal => just(number, r),
        Operator::NotEqual => without(number, r),
        Operator::Or
        | Operator::Xor
        | Operator::And
        | Operator::Plus
        | Operator::Minus
        | Operator::Times
        | Operator::Over
        | Operator::Modulo => r,
    }
}

/// The relation that holds where another does not.
pub fn opposite(operator: Operator) -> Operator
    ensures { result ≡ book.opposite operator }
{
    match operator {
        Operator::Less => Operator::GreaterEqual,
        Operator::LessEqual => Operator::Greater,
        Operator::Greater => Operator::LessEqual,
        Operator::GreaterEqual => Operator::Less,
        Operator::Equal => Operator::NotEqual,
        Operator::NotEqual => Operator::Equal,
        Operator::Or => Operator::Or,
        Operator::Xor => Operator::Xor,
        Operator::And => Operator::And,
        Operator::Plus => Operator::Plus,
        Operator::Minus => Operator::Minus,
        Operator::Times => Operator::Times,
        Operator::Over => Operator::Over,
        Operator::Modulo => Operator::Modulo,
    }
}

/// The relation that holds from the other side.
pub fn mirrored(operator: Operator) -> Operator
    ensures { result ≡ book.mirrored operator }
{
    match operator {
        Operator::Less => Operator::Greater,
        Operator::LessEqual => Operator::GreaterEqual,
        Operator::Greater => Operator::Less,
        Operator::GreaterEqual => Operator::LessEqual,
        Operator::Equal => Operator::Equal,
        Operator::NotEqual => Operator::NotEqual,
        Operator::Or => Operator::Or,
        Operator::Xor => Operator::Xor,
        Operator::And => Operator::And,
        Operator::Plus => Operator::Plus,
        Operator::Minus => Operator::Minus,
        Operator::Times => Operator::Times,
        Operator::Over => Operator::Over,
        Operator::Modulo => Operator::Modulo,
    }
}

/// Whether values of the type are truth values.
pub fn is_truth(of: ElemType) -> bool
    ensures { result ≡ book.is_truth of }
{
    match of {
        ElemType::Bool => true,
        ElemType::Sint
        | ElemType::Int
        | ElemType::Dint
        | ElemType::Lint
        | ElemType::Usint
        | ElemType::Uint
        | ElemType::Udint
        | ElemType::Time => false,
    }
}
