//! Durations, told to people.

use fbr_places::Writing;

/// How many picoseconds a nanosecond, a microsecond and a millisecond have.
const NANO: u64 = 1_000;

const MICRO: u64 = 1_000_000;

const MILLI: u64 = 1_000_000_000;

// A duration in a unit, in tenths of it.
#[derive(Clone, Copy)]
struct Tenths {
    number: u64,
    unit: &'static str,
}

// So many picoseconds in the unit that fits, upwards to a tenth of it.
fn tenths_of(picoseconds: u64) -> Tenths {
    let (size, unit) = if picoseconds < MICRO {
        (NANO, " ns")
    } else if picoseconds < MILLI {
        (MICRO, " us")
    } else {
        (MILLI, " ms")
    };
    Tenths {
        number: picoseconds.div_ceil(size / 10),
        unit,
    }
}

/// How many digits a number has.
pub(crate) fn digits(number: u64) -> usize {
    let mut count: usize = 1;
    let mut rest = number / 10;
    for _ in 0..20 {
        if rest > 0 {
            count = count.saturating_add(1);
            rest /= 10;
        }
    }
    count
}

/// Writes so many picoseconds in the unit that fits, upwards to a tenth of it.
pub(crate) fn put_duration(picoseconds: u64, writing: &mut Writing) {
    let tenths = tenths_of(picoseconds);
    writing.show(&(tenths.number / 10));
    writing.put(".");
    writing.show(&(tenths.number % 10));
    writing.put(tenths.unit);
}

/// How wide that is.
pub(crate) fn duration_width(picoseconds: u64) -> usize {
    let tenths = tenths_of(picoseconds);
    digits(tenths.number / 10)
        .saturating_add(2)
        .saturating_add(tenths.unit.len())
}
