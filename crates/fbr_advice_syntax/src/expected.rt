//! What the grammar takes at a place: each token is tried there.

use crate::stopped::Stopped;
use fb_lex::Kind;
use fb_words::{Mark, SIGNS, WORDS};
use fbr_advice::advice::Advice;
use fbr_advice::tokens::{mark_of, name_of, put_spelled};
use fbr_places::{Writing, distance, nearness};
use std::alloc::AllocError;

// Whether a sign or a word is told as an operator, a type, or the beginning of an expression.
fn is_grouped(mark: Mark, is_expression: bool) -> bool {
    match mark {
        Mark::LParen => is_expression,
        Mark::LessEqual
        | Mark::GreaterEqual
        | Mark::NotEqual
        | Mark::Equal
        | Mark::Less
        | Mark::Greater
        | Mark::Plus
        | Mark::Minus
        | Mark::Star
        | Mark::Slash
        | Mark::Ampersand
        | Mark::And
        | Mark::Or
        | Mark::Xor
        | Mark::Not
        | Mark::Mod
        | Mark::True
        | Mark::False => true,
        _ => mark.elem_type().is_some(),
    }
}

// Adds what is told, where it is so.
fn add(items: &mut Vec<&'static str>, item: &'static str, is_so: bool) -> Result<(), AllocError> {
    if is_so {
        items.push(item)?;
    }
    Ok(())
}

// Adds the names and numbers that could stand there, and groups of signs and words; and whether an expression could.
fn add_groups(stopped: &mut Stopped, items: &mut Vec<&'static str>) -> Result<bool, AllocError> {
    let is_expression = stopped.takes(Kind::Mark(Mark::Not))?;
    let is_constant = stopped.takes(Kind::Mark(Mark::True))?;
    let is_name = stopped.takes(Kind::Name(String::from_str(stopped.alloc, "A")?))?;
    let is_one = stopped.takes(Kind::Number(1))?;
    let is_number = stopped.takes(Kind::Number(2))?;
    add(items, "an expression", is_expression)?;
    add(items, "a name", is_name && !is_expression)?;
    add(items, "a constant", is_constant && !is_expression)?;
    add(items, "a number", is_number && !is_constant)?;
    add(items, "1", is_one && !is_number)?;
    for word in ["IN", "ST"] {
        let is_word = stopped.takes(Kind::Name(String::from_str(stopped.alloc, word)?))?;
        add(items, word, is_word && !is_name)?;
    }
    let is_type = stopped.takes(Kind::Mark(Mark::Bool))?;
    add(items, "a type", is_type)?;
    let is_operator = stopped.takes(Kind::Mark(Mark::Plus))?;
    add(items, "an operator", is_operator)?;
    Ok(is_expression)
}

// The nearest of the words that could stand for a name that was found.
fn near_word(stopped: &mut Stopped, name: &str) -> Result<Option<Mark>, AllocError> {
    let mut found = None;
    let mut limit = nearness(name);
    for mark in WORDS {
        if let Some(near) = distance(stopped.alloc, mark.word(), name, limit)? {
            if stopped.takes(Kind::Mark(mark))? {
                limit = near;
                found = Some(mark);
            }
        }
    }
    Ok(found)
}

/// Says which reserved word is near to a name that was found, if it could stand there; and whether one is. A name with a sign behind it that
/// follows names is meant as one.
pub fn tell_near(stopped: &mut Stopped, advice: &mut Advice) -> Result<bool, AllocError> {
    let is_name = matches!(
        mark_of(stopped.next.as_ref()),
        Some(Mark::Assign | Mark::LBracket | Mark::LParen | Mark::Colon | Mark::Dot)
    );
    let name = match name_of(stopped.found.as_ref()) {
        Some(name) if !is_name => String::from_str(stopped.alloc, name)?,
        _ => return Ok(false),
    };
    let Some(mark) = near_word(stopped, name.as_str())? else {
        return Ok(false);
    };
    advice.said.put("found `");
    advice.said.put(name.as_str());
    advice.said.put("`; did you mean ");
    advice.said.put(mark.word());
    advice.said.put("?");
    advice.end("write ", mark.word());
    advice.is_plain = true;
    Ok(true)
}

/// Writes what could stand at a place, if that is known: behind another fault it may not be.
pub fn tell_expected(stopped: &mut Stopped, writing: &mut Writing) -> Result<(), AllocError> {
    let mut items = Vec::new(stopped.alloc);
    let is_expression = add_groups(stopped, &mut items)?;
    for mark in SIGNS {
        if !is_grouped(mark, is_expression) && stopped.takes(Kind::Mark(mark))? {
            items.push(mark.sign())?;
        }
    }
    for mark in WORDS {
        if !is_grouped(mark, is_expression) && stopped.takes(Kind::Mark(mark))? {
            items.push(mark.word())?;
        }
    }
    for (number, item) in items.iter().enumerate() {
        let item = *item;
        writing.put(if number == 0 {
            "; possible here: "
        } else {
            ", "
        });
        match item.as_bytes().first() {
            Some(byte) if byte.is_ascii_alphabetic() => writing.put(item),
            _ => put_spelled(item, writing),
        }
    }
    writing.put("\n");
    Ok(())
}
