//! The longest token that stands there.

ghost use Rattle.std.specs.Prelude.{◌≡◌, ℕ, Some};
ghost use Rattle.fb_model.specs.Tokens as book;
ghost use Rattle.fb_lex.specs.Scanning.{sign_at, marked, plain_at, word_at, begins_word, scan};
ghost use Rattle.fb_lex.specs.Lexing.{Counts, Stays, GivesKind, Scans};

use crate::characters::is_start;
use crate::literal::literal_at;
use crate::number::number_at;
use crate::sign::sign_at;
use crate::token::Kind;
use crate::word::{find_word, named, word_at};
use fb_faults::TextFault;
use std::alloc::Global;

fn number(value: Option<u64>) -> Option<Kind>
    ensures { (v : ℕ) → Counts value v → Stays result (book.number v) }
{
    Some(Kind::Number(value?))
}

#[tactic(auto, unfolding(crate::specs::Scanning::plain_at))]
fn plain_at(bytes: &[u8]) -> Option<(Option<Kind>, &[u8])>
    ensures { GivesKind result (plain_at bytes.now) }
{
    match number_at(bytes) {
        Some((value, rest)) => Some((number(value), rest)),
        None => marked_at(bytes),
    }
}

fn marked_at(bytes: &[u8]) -> Option<(Option<Kind>, &[u8])>
    ensures { GivesKind result (marked (sign_at bytes.now)) }
{
    match sign_at(bytes) {
        Some((mark, rest)) => Some((Some(Kind::Mark(mark)), rest)),
        None => None,
    }
}

fn fitting(start: usize, kind: Option<Kind>, rest: &[u8]) -> Result<(Kind, &[u8]), TextFault>
    ensures { (k : book.Kind) → Stays kind k → Scans start result (Some (k, rest.now)) }
{
    match kind {
        Some(kind) => Ok((kind, rest)),
        None => Err(TextFault::BigNumber(start)),
    }
}

fn scan_plain(start: usize, bytes: &[u8]) -> Result<(Kind, &[u8]), TextFault>
    ensures { Scans start result (plain_at bytes.now) }
{
    match plain_at(bytes) {
        Some((kind, rest)) => fitting(start, kind, rest),
        None => Err(TextFault::BadCharacter(start)),
    }
}

#[tactic(auto, unfolding(crate::specs::Scanning::word_at))]
fn scan_word(alloc: Global, start: usize, bytes: &[u8]) -> Result<(Kind, &[u8]), TextFault>
    ensures { Scans start result (Some (word_at bytes.now)) }
{
    let (word, behind) = word_at(bytes);
    let mark = find_word(word);
    match literal_at(word, mark, behind) {
        Some((kind, rest)) => fitting(start, kind, rest),
        None => Ok((named(alloc, word, mark)?, behind)),
    }
}

fn begins_word(bytes: &[u8]) -> bool
    ensures { result ≡ begins_word bytes.now }
{
    match bytes {
        [byte, ..] => is_start(*byte),
        [] => false,
    }
}

/// The longest token at the front, and what is left.
#[tactic(auto, unfolding(crate::specs::Scanning::scan))]
pub(crate) fn scan(alloc: Global, start: usize, bytes: &[u8]) -> Result<(Kind, &[u8]), TextFault>
    ensures { Scans start result (scan bytes.now) }
{
    if begins_word(bytes) {
        scan_word(alloc, start, bytes)
    } else {
        scan_plain(start, bytes)
    }
}
