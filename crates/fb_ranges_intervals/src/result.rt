//! Ranges that hold the exact results of operations.

ghost use Rattle.std.specs.Prelude.{◌≡◌, ◌≢◌, ◌-◌, ◌+ℤ◌, ◌-ℤ◌, ◌*ℤ◌, ◌≤ℤ◌, ◌&&◌, ℤ, int_div, max, neg_ℤ, pos, unsigned_abs, false};
ghost use Rattle.std.specs.Int.{int_min, int_max};
ghost use Rattle.fb_model.specs.Spans as book;
ghost use Rattle.fb_ranges_intervals.specs.Views.{span_of};

use crate::interval::{Interval, Wide};

/// The numbers with the other sign.
pub(crate) fn opposites(r: Interval) -> Wide
    ensures low { result.low ≡ (book.opposites (span_of r)).low }
    ensures high { result.high ≡ (book.opposites (span_of r)).high }
{
    Wide {
        low: -i128::from(r.high),
        high: -i128::from(r.low),
    }
}

/// The sizes of the numbers.
pub(crate) fn sizes(r: Interval) -> Wide
    ensures low { result.low ≡ (book.sizes (span_of r)).low }
    ensures high { result.high ≡ (book.sizes (span_of r)).high }
{
    if 0 <= r.low {
        return exact(r);
    }
    if r.high <= 0 {
        return opposites(r);
    }
    let zero = 0i128;
    Wide {
        low: zero,
        high: (-i128::from(r.low)).max(i128::from(r.high)),
    }
}

/// The same numbers.
pub(crate) fn exact(r: Interval) -> Wide
    ensures low { result.low ≡ r.low }
    ensures high { result.high ≡ r.high }
{
    Wide {
        low: i128::from(r.low),
        high: i128::from(r.high),
    }
}

/// The sums.
pub(crate) fn sums(r: Interval, s: Interval) -> Wide
    ensures low { result.low ≡ (book.sums (span_of r) (span_of s)).low }
    ensures high { result.high ≡ (book.sums (span_of r) (span_of s)).high }
{
    Wide {
        low: i128::from(r.low) + i128::from(s.low),
        high: i128::from(r.high) + i128::from(s.high),
    }
}

fn difference(a: i64, b: i64) -> i128
    ensures { result ≡ a -ℤ b }
{
    i128::from(a) - i128::from(b)
}

/// The differences.
pub(crate) fn differences(r: Interval, s: Interval) -> Wide
    ensures low { result.low ≡ (book.differences (span_of r) (span_of s)).low }
    ensures high { result.high ≡ (book.differences (span_of r) (span_of s)).high }
{
    Wide {
        low: difference(r.low, s.high),
        high: difference(r.high, s.low),
    }
}

fn least(a: i128, b: i128, c: i128, d: i128) -> i128
    ensures { result ≡ int_min (int_min a b) (int_min c d) }
{
    a.min(b).min(c.min(d))
}

fn greatest(a: i128, b: i128, c: i128, d: i128) -> i128
    ensures { result ≡ int_max (int_max a b) (int_max c d) }
{
    a.max(b).max(c.max(d))
}

// From the least to the greatest of four numbers.
fn spread(a: i128, b: i128, c: i128, d: i128) -> Wide
    ensures low { result.low ≡ int_min (int_min a b) (int_min c d) }
    ensures high { result.high ≡ int_max (int_max a b) (int_max c d) }
{
    Wide {
        low: least(a, b, c, d),
        high: greatest(a, b, c, d),
    }
}

fn product(a: i64, b: i64) -> i128
    ensures { result ≡ a *ℤ b }
{
    i128::from(a) * i128::from(b)
}

/// The products lie in it, and its ends are products.
pub(crate) fn products(r: Interval, s: Interval) -> Wide
    ensures low { result.low ≡ (book.corners ◌*ℤ◌ (span_of r) (span_of s)).low }
    ensures high { result.high ≡ (book.corners ◌*ℤ◌ (span_of r) (span_of s)).high }
{
    spread(
        product(r.low, s.low),
        product(r.low, s.high),
        product(r.high, s.low),
        product(r.high, s.high),
    )
}

fn quotient(a: i64, b: i64) -> i128
    requires { b ≢ pos 0 }
    ensures { result ≡ int_div a b }
{
    i128::from(a) / i128::from(b)
}

/// The quotients lie in it, and its ends are quotients.
pub(crate) fn quotients(r: Interval, s: Interval) -> Wide
    requires { book.holds_zero (span_of s) ≡ false }
    ensures low { result.low ≡ (book.corners int_div (span_of r) (span_of s)).low }
    ensures high { result.high ≡ (book.corners int_div (span_of r) (span_of s)).high }
{
    spread(
        quotient(r.low, s.low),
        quotient(r.low, s.high),
        quotient(r.high, s.low),
        quotient(r.high, s.high),
    )
}

// The greatest size that a divisor in the range leaves.
fn size_of_rests(s: Interval) -> i128
    ensures value { result ≡ pos (max (unsigned_abs s.low) (unsigned_abs s.high) - 1) }
{
    i128::from(
        s.low
            .unsigned_abs()
            .max(s.high.unsigned_abs())
            .saturating_sub(1),
    )
}

fn clamped(most: i128, x: i128) -> i128
    requires { pos 0 ≤ℤ most }
    ensures value { result ≡ int_min most (int_max (pos 0) x) }
    ensures low { pos 0 ≤ℤ result }
{
    let zero = 0i128;
    most.min(zero.max(x))
}

/// What is left of divisions.
pub(crate) fn rests(r: Interval, s: Interval) -> Wide
    ensures low { result.low ≡ (book.rests (span_of r) (span_of s)).low }
    ensures high { result.high ≡ (book.rests (span_of r) (span_of s)).high }
{
    let most = size_of_rests(s);
    Wide {
        low: -clamped(most, -i128::from(r.low)),
        high: clamped(most, i128::from(r.high)),
    }
}

/// The lesser ones of two numbers.
pub(crate) fn minima(r: Interval, s: Interval) -> Interval
    ensures { span_of result ≡ book.minima (span_of r) (span_of s) }
{
    Interval {
        low: r.low.min(s.low),
        high: r.high.min(s.high),
    }
}

/// The greater ones of two numbers.
pub(crate) fn maxima(r: Interval, s: Interval) -> Interval
    ensures { span_of result ≡ book.maxima (span_of r) (span_of s) }
{
    Interval {
        low: r.low.max(s.low),
        high: r.high.max(s.high),
    }
}
