//! Which labels of a CASE a selector may have.

use fb_ranges_intervals::Interval;

/// Whether it may have one of these.
pub(crate) fn may_have(labels: &[(i64, i64)], selector: Interval) -> bool {
    for label in labels {
        if label.0 <= selector.high && selector.low <= label.1 {
            return true;
        }
    }
    false
}

/// Whether it always has those of one label.
pub(crate) fn always_has(labels: &[(i64, i64)], selector: Interval) -> bool {
    for label in labels {
        if label.0 <= selector.low && selector.high <= label.1 {
            return true;
        }
    }
    false
}
