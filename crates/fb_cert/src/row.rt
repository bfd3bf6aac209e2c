//! Rows of a certificate text, from the words of a line in upper case.

ghost use Rattle.std.specs.Prelude.{◌≡◌, ◌≤◌, ◌+◌, pos, neg_ℤ};
ghost use Rattle.std.specs.Option.{option_map};
ghost use Rattle.fb_model.specs.Spelling.{is_digit, is_start};
ghost use Rattle.fb_model.specs.CertificateText.{most_lint, most_repeats, most_channel, begins_cert};
ghost use Rattle.fb_ranges_intervals.specs.Views.{span_of};
ghost use Rattle.fb_cert.specs.Views.{texts, row_seen};
ghost use Rattle.fb_cert.specs.Reading.{number_in, whole_in, interval_in, path_from, is_path, amount_in, channel_in, row_of_two, row_at_path, row_of_three, row_of_four, text_row_at, is_head};

use crate::certificate::Amount;
use fb_ranges_intervals::Interval;

/// The most steps of a row.
pub(crate) const MOST_STEPS: u64 = 1_000_000_000_000;

/// The most places of a row, and the most depth.
pub(crate) const MOST_PLACES: u64 = 4096;

/// The most `REPEATS`.
pub(crate) const MOST_REPEATS: u64 = 255;

/// The greatest number of a channel.
pub(crate) const MOST_CHANNEL: u64 = 65_535;

/// The greatest number of LINT.
const MOST_LINT: u64 = 9_223_372_036_854_775_807;

/// A row after the first, with its path or the number of its channel.
#[derive(Clone, Copy)]
pub enum Row<'a> {
    /// How often a datagram comes at most.
    Repeats(u8),
    /// The numbers of a variable.
    Range(&'a str, Interval),
    /// What a state costs.
    Charge(&'a str, Amount),
    /// What an event input or an arrival costs.
    Weight(&'a str, Amount),
    /// The places of a resource's queue.
    Depth(&'a str, u64),
    /// The steps of an event input or an arrival, on all devices.
    Far(&'a str, u64),
    /// The steps of a state, on all devices.
    FarState(&'a str, u64),
    /// The steps of a datagram of a channel, on all devices.
    Channel(u16, u64),
}

fn is_digit(byte: u8) -> bool
    ensures { result ≡ is_digit byte }
{
    b'0' <= byte && byte <= b'9'
}

fn is_start(byte: u8) -> bool
    ensures { result ≡ is_start byte }
{
    (b'A' <= byte && byte <= b'Z') || (b'a' <= byte && byte <= b'z') || byte == b'_'
}

// The number that digits write, if it lies within the bounds.
fn read_number(word: &str, low: u64, high: u64) -> Option<u64>
    ensures { result ≡ number_in low high word.now }
{
    let mut number: u128 = 0;
    for byte in word.as_bytes() {
        if !is_digit(*byte) {
            return None;
        }
        number = number * 10 + (*byte - b'0') as u128;
        if number > high as u128 {
            return None;
        }
    }
    if word.is_empty() || number < low as u128 {
        return None;
    }
    Some(number as u64)
}

// The number below 0, or 0, of a size.
fn negative(size: u64) -> i64
    requires { size ≤ most_lint + 1 }
    ensures { result ≡ neg_ℤ (pos size) }
{
    (-i128::from(size)) as i64
}

// The number of LINT whose digits stand behind a minus.
#[tactic(auto, using(crate::proofs::Numbers::number_most))]
fn read_negative(digits: &str) -> Option<i64>
    ensures { result ≡ option_map (λ n. neg_ℤ (pos n)) (number_in 0 (most_lint + 1) digits.now) }
{
    let size = read_number(digits, 0, MOST_LINT + 1)?;
    Some(negative(size))
}

// The number of LINT that digits write.
#[tactic(auto, using(crate::proofs::Numbers::number_most))]
fn read_plain(digits: &str) -> Option<i64>
    ensures { result ≡ option_map pos (number_in 0 most_lint digits.now) }
{
    let size = read_number(digits, 0, MOST_LINT)?;
    Some(size as i64)
}

// The number of LINT that digits write, perhaps behind a minus.
fn read_whole(word: &str) -> Option<i64>
    ensures { result ≡ whole_in word.now }
{
    match word.strip_prefix('-') {
        Some(digits) => read_negative(digits),
        None => read_plain(word),
    }
}

// Whether names stand there, joined by dots.
pub(crate) fn is_path(word: &str) -> bool
    ensures { result ≡ is_path word.now }
{
    let mut name_begins = true;
    for byte in word.as_bytes() {
        if *byte == b'.' {
            if name_begins {
                return false;
            }
            name_begins = true;
        } else if is_start(*byte) || (!name_begins && is_digit(*byte)) {
            name_begins = false;
        } else {
            return false;
        }
    }
    !name_begins
}

fn read_amount(steps: &str, places: &str) -> Option<Amount>
    ensures { result ≡ amount_in steps.now places.now }
{
    let steps = read_number(steps, 0, MOST_STEPS)?;
    let places = read_number(places, 0, MOST_PLACES)?;
    Some(Amount { steps, places })
}

fn read_interval(low: &str, high: &str) -> Option<Interval>
    ensures { option_map span_of result ≡ interval_in low.now high.now }
{
    let low = read_whole(low)?;
    let high = read_whole(high)?;
    Interval::new(low, high)
}

// The number of REPEATS that digits write.
#[tactic(auto, using(crate::proofs::Numbers::number_most))]
fn read_repeats(digits: &str) -> Option<u8>
    ensures { result ≡ number_in 1 most_repeats digits.now }
{
    let number = read_number(digits, 1, MOST_REPEATS)?;
    Some(number as u8)
}

// The number of a channel that digits write.
#[tactic(auto, using(crate::proofs::Numbers::number_most))]
fn read_channel(digits: &str) -> Option<u16>
    ensures { result ≡ number_in 0 most_channel digits.now }
{
    let number = read_number(digits, 0, MOST_CHANNEL)?;
    Some(number as u16)
}

fn channel_row<'a>(channel: &str, steps: &str) -> Option<Row<'a>>
    ensures { row_seen result ≡ channel_in channel.now steps.now }
{
    let channel = read_channel(channel)?;
    let steps = read_number(steps, 0, MOST_STEPS)?;
    Some(Row::Channel(channel, steps))
}

fn row_of_two<'a>(word: &str, number: &str) -> Option<Row<'a>>
    ensures { row_seen result ≡ row_of_two word.now number.now }
{
    if word != "REPEATS" {
        return None;
    }
    let number = read_repeats(number)?;
    Some(Row::Repeats(number))
}

// A path, and one number.
fn row_at_path<'a>(word: &str, path: &'a str, number: &str) -> Option<Row<'a>>
    ensures { row_seen result ≡ row_at_path word.now path.now number.now }
{
    if word == "DEPTH" {
        return Some(Row::Depth(path, read_number(number, 1, MOST_PLACES)?));
    }
    if word == "FAR" {
        return Some(Row::Far(path, read_number(number, 0, MOST_STEPS)?));
    }
    if word == "FARSTATE" {
        return Some(Row::FarState(path, read_number(number, 0, MOST_STEPS)?));
    }
    None
}

fn row_of_three<'a>(word: &str, path: &'a str, number: &str) -> Option<Row<'a>>
    ensures { row_seen result ≡ row_of_three word.now path.now number.now }
{
    if word == "CHANNEL" {
        return channel_row(path, number);
    }
    if !is_path(path) {
        return None;
    }
    row_at_path(word, path, number)
}

fn row_of_four<'a>(word: &str, path: &'a str, first: &str, second: &str) -> Option<Row<'a>>
    ensures { row_seen result ≡ row_of_four word.now path.now first.now second.now }
{
    if !is_path(path) {
        return None;
    }
    if word == "RANGE" {
        return Some(Row::Range(path, read_interval(first, second)?));
    }
    let amount = read_amount(first, second)?;
    if word == "CHARGE" {
        return Some(Row::Charge(path, amount));
    }
    if word == "WEIGHT" {
        return Some(Row::Weight(path, amount));
    }
    None
}

/// The row that the words are.
pub(crate) fn read_row<'a>(words: &[&'a str]) -> Option<Row<'a>>
    ensures { row_seen result ≡ text_row_at (texts words.now) }
{
    match words {
        [word, number] => row_of_two(word, number),
        [word, path, number] => row_of_three(word, path, number),
        [word, path, first, second] => row_of_four(word, path, first, second),
        _ => None,
    }
}

/// Whether the words are `CERT 1`.
pub(crate) fn is_head(words: &[&str]) -> bool
    ensures { result ≡ is_head (texts words.now) }
{
    match words {
        [word, version] => *word == "CERT" && read_number(version, 1, 1).is_some(),
        _ => false,
    }
}

/// Whether the first word is `CERT`.
pub(crate) fn begins_cert(words: &[&str]) -> bool
    ensures { result ≡ begins_cert (texts words.now) }
{
    match words {
        [] => false,
        [word, ..] => *word == "CERT",
    }
}
