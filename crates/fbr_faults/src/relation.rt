//! Operations on ranges, and relations between them.

use crate::truth::Truth;
use fb_ranges::{Interval, Ranges, range};
use fb_ranges_intervals::{is_truth, range_two, whole};
use fb_words::{ElemType, Operation, Operator};
use st_types::TypedLink;

// Whether two ranges have a number in common.
fn do_meet(left: Interval, right: Interval) -> bool {
    left.low <= right.high && right.low <= left.high
}

// Whether two ranges are one and the same number.
fn are_one(left: Interval, right: Interval) -> bool {
    left.low == left.high && right.low == right.high && left.low == right.low
}

// Whether a number of the first range may be less than one of the second.
fn may_be_less(left: Interval, right: Interval) -> bool {
    left.low < right.high
}

// Whether it may be less or the same.
fn may_be_at_most(left: Interval, right: Interval) -> bool {
    left.low <= right.high
}

// What is so of a relation between numbers of two ranges.
fn truth_between(operator: Operator, left: Interval, right: Interval) -> Truth {
    let (may_hold, may_fail) = match operator {
        Operator::Less => (may_be_less(left, right), may_be_at_most(right, left)),
        Operator::LessEqual => (may_be_at_most(left, right), may_be_less(right, left)),
        Operator::Greater => (may_be_less(right, left), may_be_at_most(left, right)),
        Operator::GreaterEqual => (may_be_at_most(right, left), may_be_less(left, right)),
        Operator::Equal => (do_meet(left, right), !are_one(left, right)),
        Operator::NotEqual => (!are_one(left, right), do_meet(left, right)),
        _ => (true, true),
    };
    Truth { may_hold, may_fail }
}

// A range of values that are brought to a type. No row says that a truth value is 0 or 1.
fn brought(range: Interval, of_type: ElemType) -> Interval {
    if !is_truth(of_type) {
        range
    } else if range.low > 0 {
        Interval { low: 1, high: 1 }
    } else if range.high < 1 {
        Interval { low: 0, high: 0 }
    } else {
        Interval { low: 0, high: 1 }
    }
}

// Whether an operator is a relation.
fn is_relation(operator: Operator) -> bool {
    matches!(
        operator,
        Operator::Less
            | Operator::LessEqual
            | Operator::Greater
            | Operator::GreaterEqual
            | Operator::Equal
            | Operator::NotEqual
    )
}

/// What stands before an operation of a chain: its range, and if it is a condition what is so of it.
#[derive(Clone, Copy)]
pub(crate) struct Front {
    pub range: Interval,
    pub truth: Truth,
}

impl Front {
    /// A condition.
    pub(crate) fn of(truth: Truth) -> Front {
        Front {
            range: Interval { low: 0, high: 1 },
            truth,
        }
    }

    /// It with an operation that is neither AND nor OR.
    pub(crate) fn with(self, link: &TypedLink, ranges: &Ranges) -> Front {
        let second = range(&link.operand, ranges).range;
        match link.operation {
            Operation::Infix(operator) if is_relation(operator) => {
                let left = brought(self.range, link.of_type);
                let right = brought(second, link.of_type);
                Front::of(truth_between(operator, left, right))
            }
            operation => {
                let found = range_two(operation, link.of_type, self.range, second);
                Front {
                    range: found.unwrap_or(whole(link.of_type)),
                    truth: Truth::open(),
                }
            }
        }
    }
}
