//! The parts of a TIME. A value in milliseconds is `None` where it does not fit 64 bits.

ghost use Rattle.std.specs.Prelude.{◌≡◌, ℕ, ◌+◌, ◌*◌, ◌-◌, ◌≤◌, ◌<◌, Option};
ghost use Rattle.fb_lex.specs.Scanning.{rank_of, size_of, unit_at, behind_m, amount_at, behind_joint, span_at};
ghost use Rattle.fb_lex.specs.Lexing.{Gives, Counts, GivesNumber, GivesAmount};

use crate::number::whole_at;

/// The units of a TIME from the largest on.
#[derive(Clone, Copy)]
pub(crate) enum Unit {
    Days,
    Hours,
    Minutes,
    Seconds,
    Milliseconds,
}

impl Unit {
    fn rank(self) -> u8
        ensures value { result ≡ rank_of self }
        ensures within { result ≤ 4 }
    {
        match self {
            Unit::Days => 0,
            Unit::Hours => 1,
            Unit::Minutes => 2,
            Unit::Seconds => 3,
            Unit::Milliseconds => 4,
        }
    }

    /// The length in milliseconds.
    fn size(self) -> u64
        ensures value { result ≡ size_of self }
        ensures some { 1 ≤ result }
    {
        match self {
            Unit::Days => 86_400_000,
            Unit::Hours => 3_600_000,
            Unit::Minutes => 60_000,
            Unit::Seconds => 1_000,
            Unit::Milliseconds => 1,
        }
    }
}

/// The unit that is written there, the longest that fits, and what is left.
#[tactic(auto, unfolding(crate::specs::Scanning::unit_at))]
fn unit_at(bytes: &[u8]) -> Option<(Unit, &[u8])>
    ensures { Gives result (unit_at bytes.now) }
{
    let [byte, rest @ ..] = bytes else {
        return None;
    };
    match byte.to_ascii_uppercase() {
        b'D' => Some((Unit::Days, rest)),
        b'H' => Some((Unit::Hours, rest)),
        b'M' => Some(behind_m(rest)),
        b'S' => Some((Unit::Seconds, rest)),
        _ => None,
    }
}

fn behind_m(bytes: &[u8]) -> (Unit, &[u8])
    ensures { behind_m bytes.now ≡ (result.0, result.1.now) }
{
    let [byte, rest @ ..] = bytes else {
        return (Unit::Minutes, bytes);
    };
    if byte.to_ascii_uppercase() == b'S' {
        (Unit::Milliseconds, rest)
    } else {
        (Unit::Minutes, bytes)
    }
}

fn times(count: Option<u64>, size: u64) -> Option<u64>
    requires { 1 ≤ size }
    ensures { (v : ℕ) → Counts count v → Counts result (v * size) }
{
    count?.checked_mul(size)
}

fn plus(first: Option<u64>, more: Option<u64>) -> Option<u64>
    ensures { (v w : ℕ) → Counts first v → Counts more w → Counts result (v + w) }
{
    first?.checked_add(more?)
}

/// A whole number and its unit: the unit, the milliseconds and what is left.
#[tactic(auto, unfolding(crate::specs::Scanning::amount_at))]
fn amount_at(bytes: &[u8]) -> Option<(Unit, Option<u64>, &[u8])>
    ensures { GivesAmount result (amount_at bytes.now) }
{
    let (count, rest) = whole_at(10, bytes)?;
    let (unit, rest) = unit_at(rest)?;
    Some((unit, times(count, unit.size()), rest))
}

fn behind_joint(bytes: &[u8]) -> &[u8]
    ensures { result.now ≡ behind_joint bytes.now }
{
    let [byte, rest @ ..] = bytes else {
        return bytes;
    };
    if *byte == b'_' { rest } else { bytes }
}

/// Parts whose units stand in order, none before the least rank: the milliseconds, and what is left.
#[tactic(auto, unfolding(crate::specs::Scanning::span_at))]
pub(crate) fn span_at(least: u8, bytes: &[u8]) -> Option<(Option<u64>, &[u8])>
    requires { least ≤ 5 }
    ensures { (m : ℕ) → 5 ≤ m + least → GivesNumber result (span_at m least bytes.now) }
{
    let (unit, first, rest) = amount_at(bytes)?;
    if unit.rank() < least {
        return None;
    }
    match span_at(unit.rank() + 1, behind_joint(rest)) {
        Some((more, behind)) => Some((plus(first, more), behind)),
        None => Some((first, rest)),
    }
}
