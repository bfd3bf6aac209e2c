//! Operators and indexes whose operands have the wrong types.

use crate::typing::{said, tell_common, tell_way};
use fb_tree::BlockTree;
use fb_words::{ElemType, Mark};
use fbr_advice::advice::Advice;
use fbr_advice::kinds::array_of;
use fbr_advice::operand::{expression_type, operands, type_of};
use fbr_advice::tokens::{mark_of, name_of, put_mark};
use fbr_advice::wanted::Cursor;
use st_types::widens;

// What an operator takes, and what to do where it stands between something else.
fn taken_by(mark: Mark) -> Option<(&'static str, &'static str)> {
    match mark {
        Mark::And | Mark::Ampersand | Mark::Or | Mark::Xor | Mark::Not => Some((
            "only BOOL",
            "compare each side, as `X > 0`; numbers have no bits here: `/` and MOD take one apart",
        )),
        Mark::Star | Mark::Slash | Mark::Mod => Some((
            "only integers",
            "convert a TIME there and back, as LINT_TO_TIME(TIME_TO_LINT(T) * 2); for a BOOL write IF .. THEN .. ELSE",
        )),
        Mark::Plus | Mark::Minus => Some((
            "only integers and TIME",
            "write IF .. THEN .. ELSE, or BOOL_TO_INT(..) of a BOOL",
        )),
        Mark::Less | Mark::Greater | Mark::LessEqual | Mark::GreaterEqual => Some((
            "only integers and TIME",
            "compare BOOLs by `=` and `<>`, or write them with AND, OR and NOT",
        )),
        _ => None,
    }
}

// Whether an operator takes a type.
fn takes(mark: Mark, of_type: Option<ElemType>) -> bool {
    match (mark, of_type) {
        (Mark::And | Mark::Ampersand | Mark::Or | Mark::Xor | Mark::Not, _) => {
            matches!(of_type, Some(ElemType::Bool))
        }
        (Mark::Star | Mark::Slash | Mark::Mod, Some(ElemType::Time)) => false,
        (Mark::Equal | Mark::NotEqual, _) => true,
        (_, Some(ElemType::Bool)) => false,
        _ => true,
    }
}

// Writes what an operator takes and what to do, where it does not take one of its operands; and whether it is so.
fn tell_taken(
    mark: Mark,
    one: Option<ElemType>,
    other: Option<ElemType>,
    advice: &mut Advice,
) -> bool {
    let Some((taken, remedy)) = taken_by(mark) else {
        return false;
    };
    if takes(mark, one) && takes(mark, other) {
        return false;
    }
    advice.said.put(", and takes ");
    advice.said.put(taken);
    advice.end(remedy, "");
    true
}

// Writes what stands behind an operator that has no operand before it.
fn tell_sign(block: Option<&BlockTree>, place: Cursor<'_>, mark: Mark, advice: &mut Advice) {
    let given = match place.behind(1) {
        Some(token) if mark_of(Some(token)).is_none() => type_of(block, token),
        _ => expression_type(block, place),
    };
    put_mark(mark, &mut advice.said);
    advice.said.put(" stands before ");
    advice.said.put(said(given));
    if !tell_taken(mark, given, given, advice) {
        advice.said.put("\n");
    }
}

/// Writes what stands around an operator that does not take it.
pub fn tell_operator(block: Option<&BlockTree>, place: Cursor<'_>, advice: &mut Advice) {
    let Some(mark) = mark_of(place.before(0)) else {
        return;
    };
    if matches!(mark, Mark::Not) {
        tell_sign(block, place, mark, advice);
        return;
    }
    put_mark(mark, &mut advice.said);
    let Some((one, other)) = operands(block, place) else {
        tell_unclear(mark, advice);
        return;
    };
    advice.said.put(" stands between ");
    advice.said.put(said(one));
    advice.said.put(" and ");
    advice.said.put(said(other));
    if tell_taken(mark, one, other, advice) {
        return;
    }
    match (one, other) {
        (Some(ElemType::Bool), _) | (_, Some(ElemType::Bool)) => {
            advice.end("compare the number, as `X > 0`", "");
        }
        (Some(from), Some(to)) if !widens(from, to) && !widens(to, from) => {
            advice.said.put(", neither of which holds the other\n");
            tell_common(from, to, &mut advice.remedy);
        }
        _ => advice.said.put("\n"),
    }
}

// Writes what to do about an operator whose operands are more than names and numbers.
fn tell_unclear(mark: Mark, advice: &mut Advice) {
    advice
        .said
        .put(" stands between types that do not go together");
    match (mark, taken_by(mark)) {
        (Mark::And | Mark::Ampersand | Mark::Or | Mark::Xor, Some((_, remedy))) => {
            advice.end(remedy, "");
        }
        (Mark::Star | Mark::Slash | Mark::Mod, _) => advice.end(
            "convert one side, as INT_TO_DINT(..), and a TIME by TIME_TO_LINT(..)",
            "",
        ),
        _ => advice.end("convert one side, as INT_TO_DINT(..)", ""),
    }
}

/// Writes what is wrong with an index, whose `[` is at a place: it is of no array, or no integer.
pub fn tell_index(block: Option<&BlockTree>, place: Cursor<'_>, advice: &mut Advice) {
    let Some(name) = name_of(place.before(1)) else {
        return;
    };
    advice.said.put(name);
    if array_of(block, place.before(1)).is_none() {
        advice.said.put(" is not an array");
        advice.end("leave the square brackets out, or declare in VAR: ", name);
        advice.remedy.put(" : ARRAY [0..9] OF INT");
        return;
    }
    let given = match place.behind(1) {
        Some(token) => type_of(block, token),
        None => None,
    };
    advice.said.put(" is indexed by an integer, and this is ");
    advice.said.put(said(given));
    advice.said.put("\n");
    tell_way(given, ElemType::Int, "", &mut advice.remedy);
}
