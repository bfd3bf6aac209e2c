//! Calls of functions with other arguments than they take.

use crate::typing::tell_common;
use fb_lex::{Kind, Token};
use fb_tree::BlockTree;
use fb_words::{ElemType, Mark};
use fbr_advice::advice::Advice;
use fbr_advice::operand::type_of;
use fbr_advice::tokens::{mark_of, name_of, put_spelled};
use fbr_advice::wanted::Cursor;
use st_types::widens;

/// What stands between the parentheses of a call.
#[derive(Clone, Copy)]
struct Arguments<'a> {
    count: usize,
    /// The two numbers around a comma that no blank stands beside.
    fraction: Option<(&'a Token, &'a Token)>,
    /// The first type, and the first one that does not go with it.
    first: Option<ElemType>,
    other: Option<ElemType>,
}

// Whether a token is a number without a type.
fn is_number(token: &Token) -> bool {
    matches!(&token.kind, Kind::Number(_))
}

// The numbers around the comma at a place, where they are one number with a decimal comma.
fn fraction_at<'a>(place: Cursor<'a>) -> Option<(&'a Token, &'a Token)> {
    let (whole, comma, part) = (place.before(1)?, place.before(0)?, place.behind(1)?);
    let is_joined = whole.end == comma.start && comma.end == part.start;
    if is_joined && is_number(whole) && is_number(part) {
        Some((whole, part))
    } else {
        None
    }
}

// Takes in the type of one more name or number.
fn with_type<'a>(found: Arguments<'a>, given: Option<ElemType>) -> Arguments<'a> {
    let mut found = found;
    match (found.first, given) {
        (None, _) => found.first = given,
        (Some(first), Some(second)) => {
            let goes = widens(first, second) || widens(second, first);
            if found.other.is_none() && !goes {
                found.other = Some(second);
            }
        }
        _ => {}
    }
    found
}

// What stands between the parentheses of the call whose function is at a place.
fn arguments_of<'a>(block: Option<&BlockTree>, place: Cursor<'a>) -> Arguments<'a> {
    let mut found = Arguments {
        count: 1,
        fraction: None,
        first: None,
        other: None,
    };
    let mut open: usize = 0;
    let first = place.index.saturating_add(1);
    for (step, token) in place.tokens.get(first..).unwrap_or(&[]).iter().enumerate() {
        match mark_of(Some(token)) {
            Some(Mark::LParen | Mark::LBracket) => open = open.saturating_add(1),
            Some(Mark::RParen | Mark::RBracket) => {
                open = open.saturating_sub(1);
                if open == 0 {
                    return found;
                }
            }
            Some(Mark::Comma) if open == 1 => {
                found.count = found.count.saturating_add(1);
                let comma = Cursor {
                    tokens: place.tokens,
                    index: first.saturating_add(step),
                };
                found.fraction = found.fraction.or(fraction_at(comma));
            }
            _ if open == 1 => found = with_type(found, type_of(block, token)),
            _ => {}
        }
    }
    found
}

// How many arguments a function takes, and how it is written.
fn form_of(name: &str) -> (usize, &'static str) {
    match name {
        "LIMIT" => (3, "write LIMIT(least, value, most)"),
        "MIN" | "MAX" => (2, "nest the calls, as MAX(A, MAX(B, C))"),
        _ => (1, "write one argument"),
    }
}

// Writes that a function takes another number of arguments; of a decimal comma, that it separates two of them.
fn tell_count(name: &str, found: Arguments<'_>, text: &str, advice: &mut Advice) {
    let (wanted, form) = form_of(name);
    advice.said.put(name);
    advice.said.put(" takes ");
    advice.said.show(&wanted);
    advice.said.put(if wanted == 1 {
        " argument"
    } else {
        " arguments"
    });
    advice.said.put(", and this call has ");
    advice.said.show(&found.count);
    match found.fraction {
        Some((whole, part)) if found.count > wanted => {
            advice.said.put("; the comma in ");
            put_spelled(
                text.get(whole.start..part.end).unwrap_or(""),
                &mut advice.said,
            );
            advice.said.put(" separates two of them");
            advice.end(
                "there are no fractions: count in a smaller unit, such as tenths, or write a whole number",
                "",
            );
        }
        _ => advice.end(form, ""),
    }
}

// Writes which types of arguments do not go together.
fn tell_kinds(name: &str, found: Arguments<'_>, advice: &mut Advice) {
    match (found.first, found.other) {
        (Some(first), Some(second)) => {
            advice.said.put("the arguments of ");
            advice.said.put(name);
            advice.said.put(" are ");
            advice.said.put(first.name());
            advice.said.put(" and ");
            advice.said.put(second.name());
            advice.said.put(", neither of which holds the other\n");
            tell_common(first, second, &mut advice.remedy);
        }
        (Some(first), None) => {
            advice.said.put(name);
            advice.said.put(" does not take ");
            advice.said.put(first.name());
            advice.end(
                "MIN, MAX and LIMIT take integers and TIME, ABS integers; a conversion takes the type in its name",
                "",
            );
        }
        _ => {}
    }
}

/// Writes what is wrong with the arguments of the function that is named at a place.
pub fn tell_call(block: Option<&BlockTree>, place: Cursor<'_>, text: &str, advice: &mut Advice) {
    let Some(name) = name_of(place.before(0)) else {
        return;
    };
    let found = arguments_of(block, place);
    let (wanted, _) = form_of(name);
    if found.count == wanted {
        tell_kinds(name, found, advice);
    } else {
        tell_count(name, found, text, advice);
    }
}
