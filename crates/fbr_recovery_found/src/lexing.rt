//! Tokens of a text, whatever characters are in it.

use fb_faults::TextFault;
use fb_lex::{Token, lex};
use std::alloc::{AllocError, Global};

/// The tokens of a text, as far as there are any.
#[derive(Drop)]
pub struct Lexed {
    pub tokens: Vec<Token>,
    /// The text that these are of, where characters of the text begin no token: they became part of a name, 0, or blank. It has as many bytes.
    pub mended: Option<String>,
    /// At which bytes that was.
    pub broken: Vec<usize>,
}

// The number of the first fault of characters, and its place; nothing where there is none.
fn fault_in(alloc: Global, text: &str) -> Result<Option<(usize, u8)>, AllocError> {
    match lex(alloc, text) {
        Err(TextFault::OutOfMemory) => Err(AllocError),
        Err(TextFault::BadCharacter(at)) => Ok(Some((at, 1))),
        Err(TextFault::BigNumber(at)) => Ok(Some((at, 5))),
        _ => Ok(None),
    }
}

// How many bytes of a text are a number that is too big.
fn number_length(rest: &str) -> usize {
    let mut before = ' ';
    for (at, character) in rest.char_indices() {
        let is_sign = character == '-' && before == '#';
        let is_part = character.is_ascii_alphanumeric() || character == '_' || character == '#';
        if !is_part && !is_sign {
            return at;
        }
        before = character;
    }
    rest.len()
}

// How many bytes are outside ASCII.
fn foreign_length(rest: &str) -> usize {
    for (at, character) in rest.char_indices() {
        if character.is_ascii() {
            return at;
        }
    }
    rest.len()
}

// How many bytes are a string between quotes on one line; the first one, where nothing closes it.
fn string_length(rest: &str) -> usize {
    let mut quote = ' ';
    for (at, character) in rest.char_indices() {
        if at == 0 {
            quote = character;
        } else if character == quote {
            return at.saturating_add(1);
        } else if character == '\n' {
            return 1;
        }
    }
    1
}

// How many bytes are left out where characters begin no token.
fn broken_length(rest: &str) -> usize {
    if rest.starts_with("(*") {
        return rest.len();
    }
    if rest.starts_with('"') || rest.starts_with('\'') {
        return string_length(rest);
    }
    match foreign_length(rest) {
        0 => 1,
        length => length,
    }
}

// Adds as many bytes as a part of a text has, which is blank but for the ends of its lines, behind a first one.
fn put_blanks(part: &str, first: &str, whole: &mut String) -> Result<(), AllocError> {
    whole.push_str(first)?;
    for byte in part.as_bytes().get(first.len()..).unwrap_or(&[]) {
        whole.push_str(if *byte == b'\n' { "\n" } else { " " })?;
    }
    Ok(())
}

// Adds what is there in place of a part of a text with a fault of this number.
fn put_mended(part: &str, code: u8, whole: &mut String) -> Result<(), AllocError> {
    if code == 5 {
        return put_blanks(part, "0", whole);
    }
    let is_foreign = match part.chars().next() {
        Some(character) => !character.is_ascii(),
        None => false,
    };
    if !is_foreign {
        return put_blanks(part, "", whole);
    }
    for _ in part.as_bytes() {
        whole.push_str("_")?;
    }
    Ok(())
}

// A text of as many bytes without faults of characters, which are added.
fn mended(
    alloc: Global,
    text: &str,
    places: &mut Vec<(usize, u8)>,
    broken: &mut Vec<usize>,
) -> Result<String, AllocError> {
    let mut whole = String::new(alloc);
    let mut from: usize = 0;
    for _ in 0..text.len() {
        let rest = text.get(from..).unwrap_or("");
        let Some((behind, code)) = fault_in(alloc, rest)? else {
            break;
        };
        let at = from.saturating_add(behind);
        let fault = text.get(at..).unwrap_or("");
        let length = if code == 5 {
            number_length(fault)
        } else {
            broken_length(fault)
        };
        places.push((at, code))?;
        broken.push(at)?;
        whole.push_str(text.get(from..at).unwrap_or(""))?;
        put_mended(fault.get(..length).unwrap_or(""), code, &mut whole)?;
        from = at.saturating_add(length);
    }
    whole.push_str(text.get(from..).unwrap_or(""))?;
    Ok(whole)
}

/// The tokens of a text, and its faults of characters; nothing where it is too long.
pub fn read_tokens(
    alloc: Global,
    text: &str,
    places: &mut Vec<(usize, u8)>,
) -> Result<Option<Lexed>, AllocError> {
    let mut broken = Vec::new(alloc);
    match lex(alloc, text) {
        Ok(tokens) => {
            return Ok(Some(Lexed {
                tokens,
                mended: None,
                broken,
            }));
        }
        Err(TextFault::OutOfMemory) => return Err(AllocError),
        Err(TextFault::TooLong) => return Ok(None),
        Err(_) => {}
    }
    let whole = mended(alloc, text, places, &mut broken)?;
    match lex(alloc, whole.as_str()) {
        Ok(tokens) => Ok(Some(Lexed {
            tokens,
            mended: Some(whole),
            broken,
        })),
        Err(TextFault::OutOfMemory) => Err(AllocError),
        Err(_) => Ok(None),
    }
}
