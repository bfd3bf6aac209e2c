//! How often a device may send, in words.

ghost use Rattle.std.specs.Prelude.{◌≡◌, map, option_map};
ghost use Rattle.fb_keys.specs.Rates.{before_s, per_second, rate_in, rate_with, whole_burst};

use fb_numbers::{read_long_number, read_number};
use fb_pace::Rate;

/// How many datagrams a second are too many to be told apart.
const MOST: u32 = 1_000_000;

// What stands before `/s`, where a word ends so.
fn before_s(word: &str) -> Option<&str>
    ensures { option_map (λ w. w.now) result ≡ before_s word.now }
{
    word.strip_suffix("/s")
}

/// How many datagrams a second a word says, as `100/s`.
pub(crate) fn read_per_second(word: &str) -> Option<u32>
    ensures { result ≡ per_second word.now }
{
    match before_s(word) {
        Some(front) => read_long_number(front),
        None => None,
    }
}

// A rate, if these numbers may be those of one.
fn rate_with(per_second: Option<u32>, burst: Option<u16>) -> Option<Rate>
    ensures { result ≡ rate_with per_second burst }
{
    match (per_second, burst) {
        (Some(number), Some(burst)) => {
            if number == 0 || number > MOST || burst == 0 {
                return None;
            }
            Some(Rate {
                interval: 1_000_000_000 / u64::from(number),
                burst,
            })
        }
        _ => None,
    }
}

// The burst of a rate that says none: as many as come in a second.
fn whole_burst(per_second: Option<u32>) -> Option<u16>
    ensures { result ≡ whole_burst per_second }
{
    match per_second {
        Some(number) => Some(number.min(65_535) as u16),
        None => None,
    }
}

// A rate that was said.
fn said(rate: Option<Rate>) -> Option<Option<Rate>>
    ensures { result ≡ option_map (λ r. Some r) rate }
{
    match rate {
        Some(rate) => Some(Some(rate)),
        None => None,
    }
}

// The rate of a word that says no burst.
fn read_alone(word: &str) -> Option<Option<Rate>>
    ensures { result ≡ option_map (λ r. Some r) (rate_with (per_second word.now) (whole_burst (per_second word.now))) }
{
    let number = read_per_second(word);
    said(rate_with(number, whole_burst(number)))
}

/// The rate that words say, or that there are none: `100/s`, perhaps with `burst 20` behind it; `None` where they say no rate that may be.
pub(crate) fn read_rate(words: &[&str]) -> Option<Option<Rate>>
    ensures { result ≡ rate_in (map (λ w. w.now) words.now) }
{
    match words {
        [] => Some(None),
        [word] => read_alone(word),
        [word, verb, burst] => {
            if *verb == "burst" {
                said(rate_with(read_per_second(word), read_number(burst)))
            } else {
                None
            }
        }
        _ => None,
    }
}
