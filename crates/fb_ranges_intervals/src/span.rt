//! Tests of ranges, and ranges of types.

ghost use Rattle.std.specs.Prelude.{◌≡◌};
ghost use Rattle.fb_words.specs.declared.elem_type.ElemType.TheVariants as t;
ghost use Rattle.fb_model.specs.Values.{lowest, highest};
ghost use Rattle.fb_model.specs.Spans as book;
ghost use Rattle.fb_model.specs.Spans.{span};
ghost use Rattle.fb_ranges_intervals.specs.Views.{span_of};

use crate::interval::{Interval, Wide};
use fb_words::ElemType;

/// The numbers of a type.
#[tactic(auto, using(fb_words::proofs::Types::bounded))]
pub fn whole(of: ElemType) -> Interval
    ensures value { span_of result ≡ book.whole of }
    ensures low { result.low ≡ lowest of }
    ensures high { result.high ≡ highest of }
{
    Interval {
        low: of.lowest(),
        high: of.highest(),
    }
}

/// The truth values.
pub(crate) fn truth() -> Interval
    ensures { span_of result ≡ book.truth }
{
    Interval { low: 0, high: 1 }
}

/// The smallest range that holds both.
pub fn joined(r: Interval, s: Interval) -> Interval
    ensures { span_of result ≡ book.joined (span_of r) (span_of s) }
{
    Interval {
        low: r.low.min(s.low),
        high: r.high.max(s.high),
    }
}

/// Whether a range lies in another.
pub fn is_within(r: Interval, s: Interval) -> bool
    ensures { result ≡ book.within (span_of r) (span_of s) }
{
    s.low <= r.low && r.high <= s.high
}

/// Whether 0 lies in a range.
pub(crate) fn holds_zero(r: Interval) -> bool
    ensures { result ≡ book.holds_zero (span_of r) }
{
    r.low <= 0 && 0 <= r.high
}

/// A range, where it does not leave the type; else the whole type.
pub(crate) fn fitted(of: ElemType, w: Wide) -> Interval
    ensures { span_of result ≡ book.fitted of (span w.low w.high) }
{
    let all = whole(of);
    if w.low < i128::from(all.low) || i128::from(all.high) < w.high {
        return all;
    }
    Interval {
        low: w.low as i64,
        high: w.high as i64,
    }
}
