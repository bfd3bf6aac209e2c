//! A declaration alone, at its place in a text.

use fb_lex::Token;
use fb_words::Mark;
use fbr_advice::tokens::{index_at, mark_of};
use std::alloc::{AllocError, Global};

/// Whether the token of a number begins a declaration: before a sign such a word is there in place of a name, unless a declaration has ended.
pub fn begins(tokens: &[Token], index: usize) -> bool {
    let is_behind = match index.checked_sub(1) {
        Some(before) => matches!(mark_of(tokens.get(before)), Some(Mark::EndFunctionBlock)),
        None => true,
    };
    let is_name = match mark_of(tokens.get(index.saturating_add(1))) {
        Some(mark) => !is_behind && !mark.sign().is_empty(),
        None => false,
    };
    match mark_of(tokens.get(index)) {
        Some(Mark::FunctionBlock | Mark::System) => !is_name,
        _ => false,
    }
}

// The byte of the token at which the declaration begins that a token is in, or before which it is.
fn first_byte(tokens: &[Token], index: usize) -> usize {
    for step in 1..index.saturating_add(1) {
        let at = index.saturating_sub(step);
        if begins(tokens, at) {
            return match tokens.get(at) {
                Some(token) => token.start,
                None => 0,
            };
        }
    }
    0
}

// The byte behind a declaration: that of the token at which the next one begins.
fn last_byte(text: &str, tokens: &[Token], index: usize) -> usize {
    if begins(tokens, index) {
        return match tokens.get(index) {
            Some(token) => token.end,
            None => text.len(),
        };
    }
    for (step, token) in tokens.get(index..).unwrap_or(&[]).iter().enumerate() {
        if begins(tokens, index.saturating_add(step)) {
            return token.start;
        }
    }
    text.len()
}

// Adds blanks in place of a part of a text, of which the ends of lines stay.
fn put_blanks(part: &str, whole: &mut String) -> Result<(), AllocError> {
    for byte in part.as_bytes() {
        whole.push_str(if *byte == b'\n' { "\n" } else { " " })?;
    }
    Ok(())
}

/// A text in which all is blank but the declaration around a byte, by the text's tokens. A token that ends it too soon is there too.
pub fn part_around(
    alloc: Global,
    text: &str,
    tokens: &[Token],
    at: usize,
) -> Result<String, AllocError> {
    let index = index_at(tokens, at);
    let from = first_byte(tokens, index);
    let to = last_byte(text, tokens, index);
    let mut whole = String::new(alloc);
    put_blanks(text.get(..from).unwrap_or(""), &mut whole)?;
    whole.push_str(text.get(from..to).unwrap_or(""))?;
    put_blanks(text.get(to..).unwrap_or(""), &mut whole)?;
    Ok(whole)
}
