//! Faults, told to people.

use crate::found::{Fault, Wrong};
use fb_ranges::Interval;
use fbr_places::Writing;

/// Writes the numbers from one to another, or the one number that they are: `0 to 9`, `7`.
pub fn tell_numbers(low: i64, high: i64, writing: &mut Writing) {
    writing.show(&low);
    if low == high {
        return;
    }
    writing.put(" to ");
    writing.show(&high);
}

fn tell_divisor(divisor: Interval, writing: &mut Writing) {
    writing.put("the divisor may be 0: it is ");
    tell_numbers(divisor.low, divisor.high, writing);
}

fn tell_index(name: &str, index: Interval, low: i64, high: i64, writing: &mut Writing) {
    writing.put("the index of ");
    writing.put(name);
    writing.put(" is ");
    tell_numbers(index.low, index.high, writing);
    writing.put(", and the array has ");
    tell_numbers(low, high, writing);
}

fn tell_leaving(name: &str, value: Interval, row: Interval, writing: &mut Writing) {
    writing.put(name);
    writing.put(" may get ");
    tell_numbers(value.low, value.high, writing);
    writing.put(", and its row is ");
    tell_numbers(row.low, row.high, writing);
}

/// Writes a fault in one sentence for people, as `the divisor may be 0: it is 0 to 9`, `the index of BUF is 0 to 12, and the array has 0 to 9`
/// or `CV may get 0 to 10, and its row is 0 to 9`.
pub fn tell_fault(fault: &Fault, writing: &mut Writing) {
    match &fault.wrong {
        Wrong::Divisor(divisor) => tell_divisor(*divisor, writing),
        Wrong::Index(name, index, low, high) => {
            tell_index(name.as_str(), *index, *low, *high, writing);
        }
        Wrong::Leaves(name, value, row) => tell_leaving(name.as_str(), *value, *row, writing),
    }
}
