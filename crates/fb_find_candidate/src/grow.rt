//! How far a range grows or shrinks in a round.

use crate::landmark::{landmark_above, landmark_below};
use crate::line::Line;
use fb_ranges_intervals::Interval;

/// In so many rounds an end grows by no more than is asked of it; then to the next landmark, if there is one.
const EARLY_ROUNDS: u8 = 3;

/// And after so many to its type's end.
const LATE_ROUNDS: u8 = 24;

// A high end that is asked to be so high.
fn raised(rounds: u8, most: i64, asked: i64, landmarks: &[i64]) -> i64 {
    if LATE_ROUNDS < rounds {
        return most;
    }
    if rounds <= EARLY_ROUNDS {
        return asked.min(most);
    }
    landmark_above(landmarks, asked).unwrap_or(asked).min(most)
}

// A low end that is asked to be so low.
fn lowered(rounds: u8, least: i64, asked: i64, landmarks: &[i64]) -> i64 {
    if LATE_ROUNDS < rounds {
        return least;
    }
    if rounds <= EARLY_ROUNDS {
        return asked.max(least);
    }
    landmark_below(landmarks, asked).unwrap_or(asked).max(least)
}

// With a high end that is asked to be so high.
fn with_high<'a>(line: Line<'a>, asked: i64, landmarks: &[i64]) -> Line<'a> {
    if asked <= line.range.high {
        return line;
    }
    let highs = line.highs.saturating_add(1);
    let high = raised(highs, line.of_type.highest(), asked, landmarks);
    let range = Interval {
        low: line.range.low,
        high: high.max(line.range.high),
    };
    Line {
        range,
        highs,
        ..line
    }
}

// With a low end that is asked to be so low.
fn with_low<'a>(line: Line<'a>, asked: i64, landmarks: &[i64]) -> Line<'a> {
    if line.range.low <= asked {
        return line;
    }
    let lows = line.lows.saturating_add(1);
    let low = lowered(lows, line.of_type.lowest(), asked, landmarks);
    let range = Interval {
        low: low.min(line.range.low),
        high: line.range.high,
    };
    Line {
        range,
        lows,
        ..line
    }
}

/// A line that is asked to hold this.
pub(crate) fn grown<'a>(line: Line<'a>, asked: Interval, landmarks: &[i64]) -> Line<'a> {
    if line.is_given {
        return line;
    }
    with_low(with_high(line, asked.high, landmarks), asked.low, landmarks)
}

/// A line of which no more is asked than this.
pub(crate) fn shrunk<'a>(line: Line<'a>, asked: Interval) -> Line<'a> {
    if line.is_given {
        return line;
    }
    let low = line.range.low.max(asked.low);
    let high = line.range.high.min(asked.high);
    if high < low {
        return line;
    }
    Line {
        range: Interval { low, high },
        lows: 0,
        highs: 0,
        ..line
    }
}
