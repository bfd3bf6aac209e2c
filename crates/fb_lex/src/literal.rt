//! Literals with `#`. A token is `None` where its number is beyond its limit.

ghost use Rattle.std.specs.Prelude.{◌≡◌, ℕ, Option};
ghost use Rattle.fb_model.specs.Spelling.{upper, is_integer, is_time_word};
ghost use Rattle.fb_model.specs.Tokens as book;
ghost use Rattle.fb_lex.specs.Scanning.{integer_type, minus_at, typed_by, lasting, span_at, number_at, literal_at};
ghost use Rattle.fb_lex.specs.Lexing.{Counts, Stays, GivesKind};

use crate::number::number_at;
use crate::span::span_at;
use crate::token::Kind;
use fb_words::{ElemType, Mark};

/// One above the longest TIME in milliseconds.
const TIME_LIMIT: u64 = 9_223_372_036_854_775_808;

fn is_integer(elem: ElemType) -> bool
    ensures { result ≡ is_integer elem }
{
    match elem {
        ElemType::Bool => false,
        ElemType::Time => false,
        _ => true,
    }
}

/// The integer type that a word names, if it names one.
fn integer_type(mark: Option<Mark>) -> Option<ElemType>
    ensures { result ≡ integer_type mark }
{
    let elem = mark?.elem_type()?;
    if is_integer(elem) { Some(elem) } else { None }
}

fn is_time_word(word: &[u8]) -> bool
    ensures { result ≡ is_time_word (upper word.now) }
{
    word.eq_ignore_ascii_case(b"T") || word.eq_ignore_ascii_case(b"TIME")
}

fn minus_at(bytes: &[u8]) -> (bool, &[u8])
    ensures { minus_at bytes.now ≡ (result.0, result.1.now) }
{
    let [byte, rest @ ..] = bytes else {
        return (false, bytes);
    };
    if *byte == b'-' {
        (true, rest)
    } else {
        (false, bytes)
    }
}

fn typed(elem: ElemType, negative: bool, size: Option<u64>) -> Option<Kind>
    ensures { (v : ℕ) → Counts size v → Stays result (book.typed elem negative v) }
{
    Some(Kind::Typed(elem, negative, size?))
}

fn duration(negative: bool, milliseconds: Option<u64>) -> Option<Kind>
    ensures { (v : ℕ) → Counts milliseconds v → Stays result (book.duration negative v) }
{
    let milliseconds = milliseconds?;
    if milliseconds < TIME_LIMIT {
        Some(Kind::Duration(negative, milliseconds))
    } else {
        None
    }
}

fn typed_at(mark: Option<Mark>, negative: bool, bytes: &[u8]) -> Option<(Option<Kind>, &[u8])>
    ensures { GivesKind result (typed_by (integer_type mark) negative (number_at bytes.now)) }
{
    let elem = integer_type(mark)?;
    let (size, rest) = number_at(bytes)?;
    Some((typed(elem, negative, size), rest))
}

fn duration_at(negative: bool, bytes: &[u8]) -> Option<(Option<Kind>, &[u8])>
    ensures { GivesKind result (lasting negative (span_at 5 0 bytes.now)) }
{
    let (milliseconds, rest) = span_at(0, bytes)?;
    Some((duration(negative, milliseconds), rest))
}

/// What continues a word to a literal, and what is left.
#[tactic(auto, unfolding(crate::specs::Scanning::literal_at))]
pub(crate) fn literal_at<'a>(
    word: &[u8],
    mark: Option<Mark>,
    bytes: &'a [u8],
) -> Option<(Option<Kind>, &'a [u8])>
    ensures { GivesKind result (literal_at (upper word.now) mark bytes.now) }
{
    let [byte, behind @ ..] = bytes else {
        return None;
    };
    if *byte != b'#' {
        return None;
    }
    let (negative, rest) = minus_at(behind);
    if is_time_word(word) {
        duration_at(negative, rest)
    } else {
        typed_at(mark, negative, rest)
    }
}
