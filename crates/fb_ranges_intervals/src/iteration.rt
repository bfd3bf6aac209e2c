//! Iterations of FOR, and the numbers of its variable.

ghost use Rattle.std.specs.Prelude.{◌≡◌, ◌<◌, ◌^◌, ◌+◌, ◌&&◌, ◌≤ℤ◌, true, ℕ, pos, suc};
ghost use Rattle.fb_words.specs.declared.elem_type.ElemType.TheVariants as t;
ghost use Rattle.fb_model.specs.Values.{lowest, highest};
ghost use Rattle.fb_model.specs.Language.{iteration_count};
ghost use Rattle.fb_model.specs.Clear as book;
ghost use Rattle.fb_model.specs.Spans.{span};
ghost use Rattle.fb_ranges_intervals.specs.Views.{span_of};

use crate::interval::Interval;
use crate::span::joined;

/// How many numbers from the first on, a step apart, are not past the last.
pub fn iterations(first: i64, last: i64, step: i64) -> u128
    ensures { result ≡ iteration_count first last step }
{
    if step == 0 {
        return 0;
    }
    let is_past = if step > 0 { last < first } else { first < last };
    if is_past {
        return 0;
    }
    u128::from(last.abs_diff(first) / step.unsigned_abs()) + 1
}

/// The most iterations of a FOR whose bounds lie in these ranges.
pub fn most_iterations(first: Interval, last: Interval, step: i64) -> u128
    ensures { result ≡ book.most_iterations (span_of first) (span_of last) step }
{
    if step >= 0 {
        return iterations(first.low, last.high, step);
    }
    iterations(first.high, last.low, step)
}

fn is_single(r: Interval) -> bool
    ensures { result ≡ book.is_single (span_of r) }
{
    r.high <= r.low
}

fn last_value(first: i64, step: i64, iterations: u128) -> i64
    requires some { 0 < iterations }
    requires within { iterations < 2 ^ 64 + 1 }
    requires low { lowest t.Lint ≤ℤ book.last_value first step iterations }
    requires high { book.last_value first step iterations ≤ℤ highest t.Lint }
    ensures { result ≡ book.last_value first step iterations }
{
    let steps = (iterations - 1) as u64;
    (i128::from(first) + i128::from(steps) * i128::from(step)) as i64
}

// Whether both bounds are known.
fn are_known(first: Interval, last: Interval) -> bool
    ensures { result ≡ (book.is_single (span_of first) && book.is_single (span_of last)) }
{
    is_single(first) && is_single(last)
}

// The last number of the variable, where the bounds are known.
fn end(first: Interval, last: Interval, step: i64, iterations: u128) -> Interval
    requires most { iterations ≡ book.most_iterations (span_of first) (span_of last) step }
    requires some { 0 < iterations }
    requires known { (book.is_single (span_of first) && book.is_single (span_of last)) ≡ true }
    ensures { span_of result ≡ span (book.last_value first.low step iterations) (book.last_value first.low step iterations) }
{
    single(last_value(first.low, step, iterations))
}

/// The numbers that the variable of a FOR takes, of whose iterations there are some.
pub fn taken(first: Interval, last: Interval, step: i64, iterations: u128) -> Interval
    requires most { iterations ≡ book.most_iterations (span_of first) (span_of last) step }
    requires some { 0 < iterations }
    ensures { span_of result ≡ book.taken (span_of first) (span_of last) step iterations }
{
    if are_known(first, last) {
        return joined(single(first.low), end(first, last, step, iterations));
    }
    if step > 0 {
        return Interval {
            low: first.low,
            high: last.high,
        };
    }
    Interval {
        low: last.low,
        high: first.high,
    }
}

fn single(number: i64) -> Interval
    ensures { span_of result ≡ span number number }
{
    Interval {
        low: number,
        high: number,
    }
}

// Whether some bounds in these ranges give no iteration.
fn may_skip(first: Interval, last: Interval, step: i64) -> bool
    ensures { result ≡ book.may_skip (span_of first) (span_of last) step }
{
    if step > 0 {
        return last.low < first.high;
    }
    first.low < last.high
}

/// The range of the variable of a FOR afterwards, from what it was before.
pub fn left_with(
    first: Interval,
    last: Interval,
    step: i64,
    iterations: u128,
    before: Interval,
) -> Interval
    requires most { iterations ≡ book.most_iterations (span_of first) (span_of last) step }
    requires some { 0 < iterations }
    ensures { span_of result ≡ book.left_with (span_of first) (span_of last) step iterations (span_of before) }
{
    if are_known(first, last) {
        return end(first, last, step, iterations);
    }
    let own = taken(first, last, step, iterations);
    if may_skip(first, last, step) {
        return joined(own, before);
    }
    own
}
