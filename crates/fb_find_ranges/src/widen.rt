//! How far a row grows in a round.

ghost use Rattle.std.specs.Prelude.{◌≡◌, int_lt, if◌then◌else◌};
ghost use Rattle.std.specs.Int.{int_min, int_max};
ghost use Rattle.fb_model.specs.Spans.{joined, span};
ghost use Rattle.fb_model.specs.FinderRanges as book;
ghost use Rattle.fb_ranges_intervals.specs.Views.{span_of};
ghost use Rattle.fb_find_ranges.specs.Lines as lines;

use fb_ranges_intervals::Interval;
use fb_words::ElemType;

/// The last round in which a row grows by no more than is asked of it: later an end that grows becomes its type's end.
pub const LAST_EARLY_ROUND: u8 = 64;

// A row after its low end was asked to be so low. (One beyond its type, as none is, keeps what it has.)
fn lowered(late: bool, least: i64, old: Interval, asked: Interval) -> Interval
    ensures { span_of result ≡ span (int_min old.low (if int_lt asked.low old.low then (if late then least else int_max least asked.low) else old.low)) old.high }
{
    if asked.low >= old.low {
        return old;
    }
    if late {
        return Interval {
            low: old.low.min(least),
            high: old.high,
        };
    }
    Interval {
        low: old.low.min(least.max(asked.low)),
        high: old.high,
    }
}

// The same with its high end.
fn raised(late: bool, most: i64, old: Interval, asked: Interval) -> Interval
    ensures { span_of result ≡ span old.low (int_max old.high (if int_lt old.high asked.high then (if late then most else int_min most asked.high) else old.high)) }
{
    if asked.high <= old.high {
        return old;
    }
    if late {
        return Interval {
            low: old.low,
            high: old.high.max(most),
        };
    }
    Interval {
        low: old.low,
        high: old.high.max(most.min(asked.high)),
    }
}

// A row after a round, which was asked to be so large.
fn widened(round: u8, of: ElemType, old: Interval, asked: Interval) -> Interval
    ensures { span_of result ≡ joined (span_of old) (book.widened round of (span_of old) (span_of asked)) }
{
    let late = LAST_EARLY_ROUND < round;
    let row = lowered(late, of.lowest(), old, asked);
    raised(late, of.highest(), row, asked)
}

/// The same, of a variable that may be a BOOL, which has all values of its type from the first.
pub(crate) fn stepped(round: u8, of: ElemType, old: Interval, asked: Interval) -> Interval
    ensures { span_of result ≡ lines.stepped round of (span_of old) (span_of asked) }
{
    match of {
        ElemType::Bool => old,
        _ => widened(round, of, old, asked),
    }
}
