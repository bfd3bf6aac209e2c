//! Signs.

ghost use Rattle.std.specs.Prelude.{◌≡◌, ℕ, ◌∷◌, [], false, None};
ghost use Rattle.fb_lex.specs.Scanning.{find_sign, one_sign, two_signs, sign_at};
ghost use Rattle.fb_lex.specs.Lexing.{Gives};

use fb_words::{Mark, SIGNS};

#[tactic(auto, unfolding(crate::specs::Scanning::find_sign))]
fn find_sign(bytes: &[u8]) -> Option<Mark>
    ensures { result ≡ find_sign bytes.now }
{
    for mark in SIGNS.iter() {
        if mark.sign().as_bytes() == bytes {
            return Some(*mark);
        }
    }
    None
}

// The sign of this character alone. (The common ones are told at once.)
#[tactic(auto, unfolding(crate::specs::Scanning::find_sign))]
fn sign_of(byte: u8) -> Option<Mark>
    ensures { result ≡ find_sign (byte ∷ []) }
{
    match byte {
        b';' => Some(Mark::Semicolon),
        b'.' => Some(Mark::Dot),
        b',' => Some(Mark::Comma),
        b':' => Some(Mark::Colon),
        b'(' => Some(Mark::LParen),
        b')' => Some(Mark::RParen),
        b'[' => Some(Mark::LBracket),
        b']' => Some(Mark::RBracket),
        b'=' => Some(Mark::Equal),
        b'<' => Some(Mark::Less),
        b'>' => Some(Mark::Greater),
        b'+' => Some(Mark::Plus),
        b'-' => Some(Mark::Minus),
        b'*' => Some(Mark::Star),
        b'/' => Some(Mark::Slash),
        _ => find_sign(&[byte]),
    }
}

/// The sign of one character that stands there.
fn one_sign(bytes: &[u8]) -> Option<(Mark, &[u8])>
    ensures { Gives result (one_sign bytes.now) }
{
    let [byte, rest @ ..] = bytes else {
        return None;
    };
    match sign_of(*byte) {
        Some(mark) => Some((mark, rest)),
        None => None,
    }
}

// Whether a sign of two characters may end so.
#[tactic(auto, unfolding(crate::specs::Scanning::find_sign))]
fn is_second(byte: u8) -> bool
    ensures { (first : ℕ) → result ≡ false → find_sign (first ∷ byte ∷ []) ≡ None }
{
    byte == b'=' || byte == b'>' || byte == b'.'
}

// The sign of these two characters.
#[tactic(auto, unfolding(crate::specs::Scanning::find_sign))]
fn sign_of_two(first: u8, second: u8) -> Option<Mark>
    ensures { result ≡ find_sign (first ∷ second ∷ []) }
{
    if !is_second(second) {
        return None;
    }
    find_sign(&[first, second])
}

fn two_signs(bytes: &[u8]) -> Option<(Mark, &[u8])>
    ensures { Gives result (two_signs bytes.now) }
{
    let [first, second, rest @ ..] = bytes else {
        return None;
    };
    match sign_of_two(*first, *second) {
        Some(mark) => Some((mark, rest)),
        None => None,
    }
}

/// The longest sign that stands there, and what is left.
#[tactic(auto, unfolding(crate::specs::Scanning::sign_at))]
pub(crate) fn sign_at(bytes: &[u8]) -> Option<(Mark, &[u8])>
    ensures { Gives result (sign_at bytes.now) }
{
    match two_signs(bytes) {
        Some(found) => Some(found),
        None => one_sign(bytes),
    }
}
