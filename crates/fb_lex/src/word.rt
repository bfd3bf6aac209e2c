//! Words and names.

ghost use Rattle.std.specs.Prelude.{◌≡◌, ℕ, List, ◌∷◌, IfOk, string_bytes};
ghost use Rattle.std.specs.Str.{IsAscii};
ghost use Rattle.fb_words.specs.Writing.{word_text};
ghost use Rattle.fb_model.specs.Spelling.{upper};
ghost use Rattle.fb_lex.specs.Scanning.{parts_at, find, find_word, named};
ghost use Rattle.fb_lex.specs.Views.{kind_of};

use crate::characters::is_part;
use crate::token::Kind;
use fb_words::Mark;
use std::alloc::{AllocError, Global};

// What is left behind the letters, digits and `_` that stand there.
fn behind_word(bytes: &[u8]) -> &[u8]
    ensures { result.now ≡ (parts_at bytes.now).1 }
{
    let mut rest = bytes;
    while let [byte, behind @ ..] = rest
        && is_part(*byte)
    {
        rest = behind;
    }
    rest
}

/// The letters, digits and `_` that stand there, and what is left.
pub(crate) fn word_at(bytes: &[u8]) -> (&[u8], &[u8])
    ensures word { result.0.now ≡ (parts_at bytes.now).0 }
    ensures left { result.1.now ≡ (parts_at bytes.now).1 }
    ensures ascii { IsAscii result.0.now }
{
    let behind = behind_word(bytes);
    (&bytes[..bytes.len() - behind.len()], behind)
}

// The first of these reserved words that is written so, in letters of either case.
fn find_among(words: &[Mark], word: &[u8]) -> Option<Mark>
    ensures { result ≡ find word_text words.now (upper word.now) }
{
    for mark in words {
        if mark.word().as_bytes().eq_ignore_ascii_case(word) {
            return Some(*mark);
        }
    }
    None
}

// All reserved words that begin with E and this character, and perhaps more.
#[tactic(auto, unfolding(crate::specs::Scanning::find_word))]
fn words_with_e(second: u8) -> &'static [Mark]
    ensures { (cs : List ℕ) → find word_text result.now (69 ∷ second ∷ cs) ≡ find_word (69 ∷ second ∷ cs) }
{
    match second {
        b'C' => &[Mark::EcStates, Mark::EcTransitions],
        b'L' => &[Mark::Elsif, Mark::Else],
        b'N' => &[
            Mark::EndFunctionBlock,
            Mark::EndEvent,
            Mark::EndVar,
            Mark::EndStates,
            Mark::EndTransitions,
            Mark::EndAlgorithm,
            Mark::EndFbs,
            Mark::EndConnections,
            Mark::EndSystem,
            Mark::EndDevice,
            Mark::EndResource,
            Mark::EndIf,
            Mark::EndCase,
            Mark::EndFor,
        ],
        b'V' => &[Mark::EventInput, Mark::EventOutput, Mark::EventConnections],
        _ => &[],
    }
}

// All reserved words that begin with these characters, and perhaps more.
#[tactic(auto, unfolding(crate::specs::Scanning::find_word))]
fn words_with(first: u8, second: u8) -> &'static [Mark]
    ensures { (cs : List ℕ) → find word_text result.now (first ∷ second ∷ cs) ≡ find_word (first ∷ second ∷ cs) }
{
    match (first, second) {
        (b'A', b'L' | b'R' | b'N') => &[Mark::Algorithm, Mark::Array, Mark::And],
        (b'B', b'Y' | b'O') => &[Mark::By, Mark::Bool],
        (b'C', b'A') => &[Mark::Case],
        (b'D', b'A' | b'E') => &[Mark::DataConnections, Mark::Device],
        (b'D', b'O' | b'I') => &[Mark::Do, Mark::Dint],
        (b'E', _) => words_with_e(second),
        (b'F', b'A' | b'O') => &[Mark::For, Mark::False],
        (b'F', b'B' | b'U') => &[Mark::FunctionBlock, Mark::Fbs],
        (b'I', b'F' | b'N') => &[Mark::If, Mark::Int],
        (b'L', b'I') => &[Mark::Lint],
        (b'M', b'O') => &[Mark::Mod],
        (b'N', b'O') => &[Mark::Not],
        (b'O', b'F' | b'R') => &[Mark::Of, Mark::Or],
        (b'R', b'E') => &[Mark::Resource],
        (b'S', b'I' | b'Y') => &[Mark::System, Mark::Sint],
        (b'T', b'H' | b'O') => &[Mark::To, Mark::Then],
        (b'T', b'I' | b'R') => &[Mark::True, Mark::Time],
        (b'U', b'S' | b'I' | b'D') => &[Mark::Usint, Mark::Uint, Mark::Udint],
        (b'V', b'A') => &[Mark::VarInput, Mark::VarOutput, Mark::Var],
        (b'W', b'I') => &[Mark::With],
        (b'X', b'O') => &[Mark::Xor],
        _ => &[],
    }
}

/// The reserved word that is written so, in letters of either case.
#[tactic(auto, unfolding(crate::specs::Scanning::find_word))]
pub(crate) fn find_word(word: &[u8]) -> Option<Mark>
    ensures { result ≡ find_word (upper word.now) }
{
    let [first, second, ..] = word else {
        return None;
    };
    let words = words_with(first.to_ascii_uppercase(), second.to_ascii_uppercase());
    find_among(words, word)
}

fn name(alloc: Global, word: &[u8]) -> Result<String, AllocError>
    requires { IsAscii word.now }
    ensures { IfOk result (λ t. string_bytes t ≡ upper word.now) }
{
    match std::str::from_utf8(word) {
        Ok(text) => text.to_ascii_uppercase(alloc),
        Err(_) => unreachable!(),
    }
}

/// The mark if the word is one, and else the name.
pub(crate) fn named(alloc: Global, word: &[u8], mark: Option<Mark>) -> Result<Kind, AllocError>
    requires { IsAscii word.now }
    ensures { IfOk result (λ k. kind_of k ≡ named (upper word.now) mark) }
{
    match mark {
        Some(mark) => Ok(Kind::Mark(mark)),
        None => Ok(Kind::Name(name(alloc, word)?)),
    }
}
