//! Numbers that do not fit where they stand.

use fb_lex::{Kind, Token};
use fb_tree::BlockTree;
use fb_words::{ElemType, Mark, TYPES};
use fbr_advice::advice::Advice;
use fbr_advice::operand::{expression_type, type_of};
use fbr_advice::tokens::{mark_of, name_of, open_before};
use fbr_advice::wanted::Cursor;
use fbr_places::{Port, Types, block_around, instance_around, network_around};
use st_types::widens;

// What a number is, with the sign before it.
fn number_of(token: &Token, is_negative: bool) -> Option<i128> {
    let (negative, size) = match &token.kind {
        Kind::Number(size) => (is_negative, *size),
        Kind::Typed(_, negative, size) | Kind::Duration(negative, size) => (*negative, *size),
        _ => return None,
    };
    let size = i128::from(size);
    let zero: i128 = 0;
    if negative {
        zero.checked_sub(size)
    } else {
        Some(size)
    }
}

// The first type that holds a number and all numbers of a type.
fn wider_for(of_type: ElemType, number: i128) -> Option<ElemType> {
    for wider in TYPES {
        if widens(of_type, wider) && wider.fits(number) {
            return Some(wider);
        }
    }
    None
}

// The type that the variables beside a number of an expression have: the nearest before it, or else what is assigned, or behind it.
fn beside(block: Option<&BlockTree>, place: Cursor<'_>) -> Option<ElemType> {
    for count in 1..place.index {
        let token = place.before(count)?;
        match mark_of(Some(token)) {
            Some(Mark::Assign) => {
                let assign = Cursor {
                    tokens: place.tokens,
                    index: place.index.checked_sub(count)?,
                };
                return match type_of(block, assign.target()?) {
                    None | Some(ElemType::Bool) => behind(block, place),
                    taken => taken,
                };
            }
            Some(
                Mark::Semicolon
                | Mark::Then
                | Mark::Do
                | Mark::Else
                | Mark::If
                | Mark::Elsif
                | Mark::EcTransitions,
            ) => return behind(block, place),
            None => {
                let found = type_of(block, token);
                if found.is_some() {
                    return found;
                }
            }
            _ => {}
        }
    }
    None
}

// The type of the first variable behind a number.
fn behind(block: Option<&BlockTree>, place: Cursor<'_>) -> Option<ElemType> {
    for count in 1..place.tokens.len() {
        let token = place.behind(count)?;
        match mark_of(Some(token)) {
            Some(Mark::Semicolon | Mark::Then | Mark::Do) => return None,
            None => {
                let found = type_of(block, token);
                if found.is_some() {
                    return found;
                }
            }
            _ => {}
        }
    }
    None
}

// The type of what the CASE around a label chooses by.
fn selector(block: Option<&BlockTree>, place: Cursor<'_>) -> Option<ElemType> {
    let index = open_before(place.tokens, place.index)?;
    let case = Cursor {
        tokens: place.tokens,
        index,
    };
    match mark_of(case.before(0)) {
        Some(Mark::Case) => expression_type(block, case),
        _ => None,
    }
}

// Whether a number is a label of a CASE: a colon, a comma or two dots stand behind it.
fn is_label(place: Cursor<'_>) -> bool {
    matches!(
        mark_of(place.behind(1)),
        Some(Mark::Colon | Mark::Comma | Mark::DotDot)
    ) || matches!(mark_of(place.before(1)), Some(Mark::DotDot))
}

// The type that a number has to fit, whose sign stands `sign` tokens before it.
fn wanted_type(types: Types<'_>, place: Cursor<'_>, sign: usize, at: usize) -> Option<ElemType> {
    let block = block_around(types.file, at);
    if let Kind::Typed(of_type, _, _) = &place.before(0)?.kind {
        return Some(*of_type);
    }
    let before = sign.saturating_add(1);
    match place.section() {
        (Some(Mark::Var | Mark::VarInput | Mark::VarOutput), _) => {
            mark_of(place.before(before.saturating_add(1)))?.elem_type()
        }
        (Some(Mark::Fbs), _) => {
            let instance = instance_around(network_around(types.file, at)?, at)?;
            let name = name_of(place.before(before.saturating_add(1)))?;
            match types.port(instance, name)? {
                Port::Input(of_type) => Some(of_type),
                _ => None,
            }
        }
        _ => {
            if is_label(place) {
                let found = selector(block, place);
                if found.is_some() {
                    return found;
                }
            }
            beside(block, place)
        }
    }
}

// The number at a place.
fn number_at(place: Cursor<'_>, is_negative: bool) -> Option<i128> {
    number_of(place.before(0)?, is_negative)
}

// Writes that the step of a FOR is 0; and whether it is so.
fn tell_zero(place: Cursor<'_>, advice: &mut Advice) -> bool {
    let by = if matches!(mark_of(place.before(1)), Some(Mark::Minus)) {
        place.before(2)
    } else {
        place.before(1)
    };
    if !matches!(mark_of(by), Some(Mark::By)) || number_at(place, false) != Some(0) {
        return false;
    }
    advice.said.put("a FOR whose step is 0 would never end");
    advice.end("write BY 1 or BY -1; without BY the step is 1", "");
    true
}

// Writes what is wrong with the bounds of an array, one of which is at a place; and whether they are such.
fn tell_bounds(place: Cursor<'_>, advice: &mut Advice) -> bool {
    match place.section() {
        (Some(Mark::Var | Mark::VarInput | Mark::VarOutput), true) => {}
        _ => return false,
    }
    advice.said.put("the last index of an array lies below its first, or does not fit LINT");
    advice.end("write the lower one first, as ARRAY [0..3] OF INT", "");
    true
}

// Writes a number with its sign, as it is written.
fn put_number(text: &str, place: Cursor<'_>, sign: usize, advice: &mut Advice) {
    if let (Some(first), Some(last)) = (place.before(sign), place.before(0)) {
        advice
            .said
            .put(text.get(first.start..last.end).unwrap_or(""));
    }
}

// Writes which type a number is none of, and which numbers that has.
fn put_range(of_type: ElemType, advice: &mut Advice) {
    advice.said.put(" does not fit ");
    advice.said.put(of_type.name());
    advice.said.put(", which holds ");
    advice.said.show(&of_type.lowest());
    advice.said.put(" to ");
    advice.said.show(&of_type.highest());
    advice.said.put("\n");
}

// Writes another type that holds a number, where there is one.
fn put_wider(of_type: ElemType, number: i128, is_typed: bool, advice: &mut Advice) {
    let writing = &mut advice.remedy;
    match (of_type, wider_for(of_type, number)) {
        (ElemType::Bool, _) => writing.put("write TRUE or FALSE, or declare an integer"),
        (_, Some(wider)) if is_typed => {
            writing.put("write ");
            writing.put(wider.name());
            writing.put("#.., or a number that fits");
        }
        (_, Some(wider)) => {
            writing.put("declare the variable as ");
            writing.put(wider.name());
            writing.put(", which holds it, or write a number that fits");
        }
        (_, None) => writing.put("write a number that fits"),
    }
}

/// Writes which type a number at a byte does not fit, which numbers that has, and another type that holds it.
pub fn tell_literal(
    types: Types<'_>,
    text: &str,
    place: Cursor<'_>,
    at: usize,
    advice: &mut Advice,
) {
    if tell_zero(place, advice) || tell_bounds(place, advice) {
        return;
    }
    let is_negative = matches!(mark_of(place.before(1)), Some(Mark::Minus));
    let sign = if is_negative { 1 } else { 0 };
    let (Some(of_type), Some(token)) = (wanted_type(types, place, sign, at), place.before(0)) else {
        return;
    };
    put_number(text, place, sign, advice);
    put_range(of_type, advice);
    let is_typed = matches!(&token.kind, Kind::Typed(_, _, _));
    let number = number_of(token, is_negative).unwrap_or(0);
    put_wider(of_type, number, is_typed, advice);
}
