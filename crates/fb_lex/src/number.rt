//! Whole numbers. A value is `None` where it does not fit 64 bits.

ghost use Rattle.std.specs.Prelude.{◌≡◌, ℕ, false, None, ◌+◌, ◌*◌, ◌≤◌, ◌<◌, length, IfSome};
ghost use Rattle.fb_lex.specs.Scanning.{first_digit, joined_digit, next_digit, digits_at, whole_at, base_at, named_base, behind_hash, in_base, number_at};
ghost use Rattle.fb_lex.specs.Lexing.{Gives, Counts, GivesNumber, CountsAt};

use crate::characters::{digit_in, is_digit};

/// A digit, or a `_` and a digit, and what is behind.
fn next_digit(base: u64, bytes: &[u8]) -> Option<(u64, &[u8])>
    ensures { Gives result (next_digit base bytes.now) }
{
    let [byte, rest @ ..] = bytes else {
        return None;
    };
    match digit_in(base, *byte) {
        Some(digit) => Some((digit, rest)),
        None => joined_digit(base, *byte, rest),
    }
}

fn joined_digit(base: u64, joint: u8, bytes: &[u8]) -> Option<(u64, &[u8])>
    ensures { Gives result (joined_digit base joint bytes.now) }
{
    if joint != b'_' {
        return None;
    }
    first_digit(base, bytes)
}

fn first_digit(base: u64, bytes: &[u8]) -> Option<(u64, &[u8])>
    ensures { Gives result (first_digit base bytes.now) }
{
    let [byte, rest @ ..] = bytes else {
        return None;
    };
    match digit_in(base, *byte) {
        Some(digit) => Some((digit, rest)),
        None => None,
    }
}

fn with_digit(base: u64, value: Option<u64>, digit: u64) -> Option<u64>
    requires { 2 ≤ base }
    ensures { (v : ℕ) → Counts value v → Counts result (v * base + digit) }
{
    value?.checked_mul(base)?.checked_add(digit)
}

/// The value of a digit and those behind it, and what is left.
fn digits_at(base: u64, first: u64, bytes: &[u8]) -> (Option<u64>, &[u8])
    requires { 2 ≤ base }
    ensures { CountsAt result (digits_at base first bytes.now) }
{
    let mut value = Some(first);
    let mut rest = bytes;
    while let Some((digit, behind)) = next_digit(base, rest) {
        value = with_digit(base, value, digit);
        rest = behind;
    }
    (value, rest)
}

/// A whole number in a base, and what is left.
pub(crate) fn whole_at(base: u64, bytes: &[u8]) -> Option<(Option<u64>, &[u8])>
    requires { 2 ≤ base }
    ensures { GivesNumber result (whole_at base bytes.now) }
{
    match first_digit(base, bytes) {
        Some((first, rest)) => Some(digits_at(base, first, rest)),
        None => None,
    }
}

/// The base that `2#`, `8#` or `16#` names.
fn base_at(bytes: &[u8]) -> Option<(u64, &[u8])>
    ensures value { Gives result (base_at bytes.now) }
    ensures large { IfSome result (λ p. 2 ≤ p.0) }
{
    let [first, second, rest @ ..] = bytes else {
        return None;
    };
    if *second == b'#' {
        named_base(*first, rest)
    } else if *first == b'1' && *second == b'6' {
        behind_hash(rest)
    } else {
        None
    }
}

fn named_base(digit: u8, rest: &[u8]) -> Option<(u64, &[u8])>
    ensures value { Gives result (named_base digit rest.now) }
    ensures large { IfSome result (λ p. 2 ≤ p.0) }
{
    if digit == b'2' {
        Some((2, rest))
    } else if digit == b'8' {
        Some((8, rest))
    } else {
        None
    }
}

fn behind_hash(bytes: &[u8]) -> Option<(u64, &[u8])>
    ensures value { Gives result (behind_hash bytes.now) }
    ensures large { IfSome result (λ p. 2 ≤ p.0) }
{
    let [byte, rest @ ..] = bytes else {
        return None;
    };
    if *byte == b'#' {
        Some((16, rest))
    } else {
        None
    }
}

fn based_at(bytes: &[u8]) -> Option<(Option<u64>, &[u8])>
    ensures { GivesNumber result (in_base (base_at bytes.now)) }
{
    match base_at(bytes) {
        Some((base, rest)) => whole_at(base, rest),
        None => None,
    }
}

// Whether a number may begin so. (Most that are asked for are signs.)
fn begins_number(bytes: &[u8]) -> bool
    ensures { result ≡ false → number_at bytes.now ≡ None }
{
    match bytes {
        [byte, ..] => is_digit(*byte),
        [] => false,
    }
}

/// A number with or without a base before it, and what is left.
#[tactic(auto, unfolding(crate::specs::Scanning::number_at))]
pub(crate) fn number_at(bytes: &[u8]) -> Option<(Option<u64>, &[u8])>
    ensures { GivesNumber result (number_at bytes.now) }
{
    if !begins_number(bytes) {
        return None;
    }
    match based_at(bytes) {
        Some(found) => Some(found),
        None => whole_at(10, bytes),
    }
}
