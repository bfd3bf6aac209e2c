//! Values of expressions, of conditions too: 1 where a condition holds whatever its variables have, and 0 where it never does.

use fb_ranges::Ranges;
use fb_ranges_intervals::{Interval, range_one, range_two, whole};
use fb_words::{ElemType, Operation, Operator};
use st_types::{TypedExpr, TypedLink};

// Both truth values, or one; 1 where there is none.
fn truth(may_hold: bool, may_fail: bool) -> Interval {
    if !may_fail {
        return Interval { low: 1, high: 1 };
    }
    if !may_hold {
        return Interval { low: 0, high: 0 };
    }
    Interval { low: 0, high: 1 }
}

/// Whether a condition of this value may hold.
pub(crate) fn may_hold(value: Interval) -> bool {
    0 < value.high
}

/// Whether it may fail.
pub(crate) fn may_fail(value: Interval) -> bool {
    value.low < 1
}

fn less(r: Interval, s: Interval) -> Interval {
    truth(r.low < s.high, s.low <= r.high)
}

fn at_most(r: Interval, s: Interval) -> Interval {
    truth(r.low <= s.high, s.low < r.high)
}

fn equal(r: Interval, s: Interval) -> Interval {
    let may_differ = r.low != r.high || s.low != s.high || r.low != s.low;
    truth(r.low <= s.high && s.low <= r.high, may_differ)
}

// The opposite of a truth value.
fn opposite(r: Interval) -> Interval {
    truth(may_fail(r), may_hold(r))
}

// The value of a relation, or of an operation on truth values; nothing of any other.
fn related(operator: Operator, r: Interval, s: Interval) -> Option<Interval> {
    match operator {
        Operator::Less => Some(less(r, s)),
        Operator::Greater => Some(less(s, r)),
        Operator::LessEqual => Some(at_most(r, s)),
        Operator::GreaterEqual => Some(at_most(s, r)),
        Operator::Equal => Some(equal(r, s)),
        Operator::NotEqual | Operator::Xor => Some(opposite(equal(r, s))),
        Operator::And => Some(truth(may_hold(r) && may_hold(s), may_fail(r) || may_fail(s))),
        Operator::Or => Some(truth(may_hold(r) || may_hold(s), may_fail(r) && may_fail(s))),
        Operator::Plus | Operator::Minus | Operator::Times | Operator::Over | Operator::Modulo =>
            None,
    }
}

// The value of an operation on two operands.
fn combined(operation: Operation, of: ElemType, r: Interval, s: Interval) -> Interval {
    let found = match operation {
        Operation::Infix(operator) => related(operator, r, s),
        _ => None,
    };
    match found {
        Some(value) => value,
        None => range_two(operation, of, r, s).unwrap_or(whole(of)),
    }
}

// That of an operation on one.
fn applied(operation: Operation, of: ElemType, r: Interval) -> Interval {
    match operation {
        Operation::Not => opposite(r),
        _ => range_one(operation, of, r).unwrap_or(whole(of)),
    }
}

/// The value of an expression, in which a division at fault counts as its whole type.
#[cycle(valuing)]
pub(crate) fn value(expr: &TypedExpr, ranges: &Ranges) -> Interval {
    match expr {
        TypedExpr::Constant(number) => Interval {
            low: *number,
            high: *number,
        },
        TypedExpr::Read(name) => ranges.find_at(name),
        TypedExpr::Element(name, _, _, _) => ranges.find_at(name),
        TypedExpr::Unary(operation, of, operand) => {
            applied(*operation, *of, value(operand, ranges))
        }
        TypedExpr::Chain(first, links) => value_behind(value(first, ranges), links, ranges),
    }
}

// Operations behind a first operand.
#[cycle(valuing)]
fn value_behind(first: Interval, links: &[TypedLink], ranges: &Ranges) -> Interval {
    let mut all = first;
    for link in links {
        let operand = value(&link.operand, ranges);
        all = combined(link.operation, link.of_type, all, operand);
    }
    all
}
