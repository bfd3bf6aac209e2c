//! Which rows a text can say.

ghost use Rattle.std.specs.Prelude.{◌≡◌, true};
ghost use Rattle.fb_cert.specs.Sayable.{IsSayable};
ghost use Rattle.fb_cert.specs.Adding.{is_upper, is_upper_path, is_amount, is_within, is_sayable};
ghost use Rattle.fb_cert.specs.Views.{text_row_of};

use crate::certificate::Amount;
use crate::row::{MOST_CHANNEL, MOST_PLACES, MOST_REPEATS, MOST_STEPS, Row, is_path};

// Whether the text is in upper case.
fn is_upper(text: &str) -> bool
    ensures { result ≡ is_upper text.now }
{
    for byte in text.as_bytes() {
        if byte.to_ascii_uppercase() != *byte {
            return false;
        }
    }
    true
}

// Whether the text is names in upper case, joined by dots.
fn is_upper_path(text: &str) -> bool
    ensures { result ≡ is_upper_path text.now }
{
    is_path(text) && is_upper(text)
}

// Whether steps and places are within their bounds.
fn is_amount(amount: Amount) -> bool
    ensures { result ≡ is_amount amount.steps amount.places }
{
    amount.steps <= MOST_STEPS && amount.places <= MOST_PLACES
}

// Whether a number is within its bounds.
fn is_within(low: u64, high: u64, number: u64) -> bool
    ensures { result ≡ is_within low high number }
{
    low <= number && number <= high
}

/// Whether a text can say the row.
pub(crate) fn is_sayable(row: &Row) -> bool
    ensures test { result ≡ is_sayable (text_row_of row.now) }
    ensures said { result ≡ true → IsSayable (text_row_of row.now) }
{
    match row {
        Row::Repeats(number) => is_within(1, MOST_REPEATS, *number as u64),
        Row::Range(path, interval) => {
            prove!(interval.low <= interval.high);
            is_upper_path(path)
        }
        Row::Charge(path, amount) => is_upper_path(path) && is_amount(*amount),
        Row::Weight(path, amount) => is_upper_path(path) && is_amount(*amount),
        Row::Depth(path, depth) => is_upper_path(path) && is_within(1, MOST_PLACES, *depth),
        Row::Far(path, steps) => is_upper_path(path) && is_within(0, MOST_STEPS, *steps),
        Row::FarState(path, steps) => is_upper_path(path) && is_within(0, MOST_STEPS, *steps),
        Row::Channel(number, steps) => {
            is_within(0, MOST_CHANNEL, *number as u64) && is_within(0, MOST_STEPS, *steps)
        }
    }
}
