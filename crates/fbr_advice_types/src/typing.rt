//! Types that do not go together: both by name, and the way from one to the other.

use crate::calls::tell_call;
use crate::ends::{port_of, put_end};
use crate::operators::{tell_index, tell_operator};
use fb_tree::BlockTree;
use fb_words::{ElemType, Mark, TYPES};
use fbr_advice::advice::Advice;
use fbr_advice::kinds::array_of;
use fbr_advice::operand::{expression_type, type_of};
use fbr_advice::tokens::{mark_of, name_of};
use fbr_advice::wanted::Cursor;
use fbr_places::{
    Port, Types, Writing, block_around, connection_at, instance_around, network_around,
};
use st_types::widens;

/// What an expression is: of a type, or a number without one.
pub fn said(of_type: Option<ElemType>) -> &'static str {
    match of_type {
        Some(of_type) => of_type.name(),
        None => "a number",
    }
}

/// Writes the way from a type to another one.
pub fn tell_way(from: Option<ElemType>, to: ElemType, place: &str, writing: &mut Writing) {
    match (from, to) {
        (None, ElemType::Bool) => writing.put("write TRUE or FALSE"),
        (None, _) => writing.put("write a number that it has"),
        (Some(_), ElemType::Bool) => {
            writing.put("compare");
            writing.put(place);
            writing.put(", as `.. <> 0`");
        }
        (Some(ElemType::Bool), ElemType::Time) => {
            writing.put("choose");
            writing.put(place);
            writing.put(" by IF .. THEN .. ELSE");
        }
        (Some(given), _) => {
            writing.put("write ");
            writing.put(given.name());
            writing.put("_TO_");
            writing.put(to.name());
            writing.put("(..)");
            writing.put(place);
        }
    }
}

/// Writes the way from two types of which none holds the other to one that holds both; a number becomes a TIME.
pub fn tell_common(one: ElemType, other: ElemType, writing: &mut Writing) {
    for both in TYPES {
        if widens(one, both) && widens(other, both) {
            tell_way(Some(one), both, "", writing);
            writing.put(", for ");
            writing.put(both.name());
            writing.put(" holds both");
            return;
        }
    }
    match one {
        ElemType::Time => tell_way(Some(other), one, "", writing),
        _ => tell_way(Some(one), other, "", writing),
    }
}

// Writes the types of the two ends of a data connection.
fn tell_connection(types: Types<'_>, at: usize, advice: &mut Advice) {
    let Some(network) = network_around(types.file, at) else {
        return;
    };
    let Some((connection, _)) = connection_at(network, at) else {
        return;
    };
    let block = block_around(types.file, at);
    let given = port_of(types, network, block, &connection.source);
    let taken = port_of(types, network, block, &connection.target);
    let (Some(Port::Input(from) | Port::Output(from)), Some(Port::Input(to) | Port::Output(to))) = (
        given, taken,
    ) else {
        return;
    };
    let writing = &mut advice.said;
    put_end(&connection.source, writing);
    writing.put(" is ");
    writing.put(from.name());
    writing.put(", and ");
    put_end(&connection.target, writing);
    writing.put(" is ");
    writing.put(to.name());
    writing.put("\n");
    advice.remedy.put("a connection converts nothing; ");
    tell_way(Some(from), to, " in an algorithm", &mut advice.remedy);
}

// Writes the type of what is given a value, and that of the value, which may have to be a constant.
fn tell_given(
    name: &str,
    taken: ElemType,
    given: Option<ElemType>,
    is_constant: bool,
    advice: &mut Advice,
) {
    advice.said.put(name);
    advice.said.put(" is ");
    advice.said.put(taken.name());
    advice.said.put(", and what it is given is ");
    advice.said.put(said(given));
    advice.said.put("\n");
    let writing = &mut advice.remedy;
    match taken {
        _ if !is_constant => tell_way(given, taken, "", writing),
        ElemType::Bool => writing.put("write TRUE or FALSE"),
        ElemType::Time => writing.put("write a time, as T#500ms"),
        _ => writing.put("write a number without a type"),
    }
}

// Writes that an array stands where one value is assigned or taken; and whether it is so.
fn tell_array(block: Option<&BlockTree>, place: Cursor<'_>, advice: &mut Advice) -> bool {
    let is_whole = matches!(mark_of(place.behind(2)), Some(Mark::Semicolon));
    let value = if is_whole { place.behind(1) } else { None };
    let found = array_of(block, place.before(1)).or(array_of(block, value));
    let Some(name) = found else {
        return false;
    };
    advice.said.put(name);
    advice
        .said
        .put(" is an array, and is used element by element");
    advice.end("name an element, as ", name);
    advice.remedy.put("[0], or let a FOR go over them");
    true
}

// The name and the type of the variable or the parameter before a `:=`.
fn taken_before<'a>(
    types: Types<'a>,
    block: Option<&'a BlockTree>,
    place: Cursor<'a>,
    at: usize,
) -> Option<(&'a str, ElemType)> {
    let (section, is_inside) = place.section();
    match section? {
        Mark::Fbs if is_inside => {
            let instance = instance_around(network_around(types.file, at)?, at)?;
            let name = name_of(place.before(1))?;
            match types.port(instance, name)? {
                Port::Input(of_type) => Some((name, of_type)),
                _ => None,
            }
        }
        Mark::Algorithm => {
            let token = place.target()?;
            Some((name_of(Some(token))?, type_of(block, token)?))
        }
        Mark::Var | Mark::VarInput | Mark::VarOutput => {
            let of_type = mark_of(place.before(1))?.elem_type()?;
            Some((name_of(place.before(3))?, of_type))
        }
        _ => None,
    }
}

// Writes what a condition is that is no BOOL.
fn tell_condition(block: Option<&BlockTree>, place: Cursor<'_>, advice: &mut Advice) {
    let given = expression_type(block, place);
    advice.said.put("a condition is BOOL, and this is ");
    advice.said.put(said(given));
    advice.said.put("\n");
    tell_way(given, ElemType::Bool, "", &mut advice.remedy);
}

// Writes what a FOR counts with that is no integer, or a bound that does not go into its variable.
fn tell_counter(block: Option<&BlockTree>, place: Cursor<'_>, advice: &mut Advice) {
    let Some(token) = place.behind(1) else {
        return;
    };
    let (Some(name), Some(of_type)) = (name_of(Some(token)), type_of(block, token)) else {
        return;
    };
    if array_of(block, Some(token)).is_some() {
        advice.said.put("a FOR counts with a variable, and ");
        advice.said.put(name);
        advice.said.put(" is an array");
        advice.end("take an INT of its own", "");
        return;
    }
    if matches!(of_type, ElemType::Bool | ElemType::Time) {
        advice.said.put("a FOR counts with an integer, and ");
        advice.said.put(name);
        advice.said.put(" is ");
        advice.said.put(of_type.name());
        advice.end("take an INT", "");
        return;
    }
    let bounds = Cursor {
        tokens: place.tokens,
        index: place.index.saturating_add(2),
    };
    let given = expression_type(block, bounds);
    advice.said.put(name);
    advice.said.put(" is ");
    advice.said.put(of_type.name());
    advice.said.put(", and a bound of its FOR is ");
    advice.said.put(said(given));
    advice.said.put("\n");
    tell_way(given, of_type, "", &mut advice.remedy);
}

// Writes what an assignment, a start value or a parameter gives that does not go there.
fn tell_assignment(
    types: Types<'_>,
    block: Option<&BlockTree>,
    place: Cursor<'_>,
    at: usize,
    advice: &mut Advice,
) {
    let is_constant = !matches!(place.section(), (Some(Mark::Algorithm), _));
    if !is_constant && tell_array(block, place, advice) {
        return;
    }
    if let Some((name, taken)) = taken_before(types, block, place, at) {
        let given = match place.behind(1) {
            Some(token) if is_constant => type_of(None, token),
            _ => expression_type(block, place),
        };
        tell_given(name, taken, given, is_constant, advice);
    }
}

/// Writes the types that do not go together at a byte, and the way from one to the other.
pub fn tell_types(types: Types<'_>, text: &str, place: Cursor<'_>, at: usize, advice: &mut Advice) {
    let block = block_around(types.file, at);
    match mark_of(place.before(0)) {
        Some(Mark::To) => tell_connection(types, at, advice),
        Some(Mark::If | Mark::Elsif) => tell_condition(block, place, advice),
        Some(Mark::LBracket) => match place.section() {
            (Some(Mark::EcTransitions), false) => tell_condition(block, place, advice),
            _ => tell_index(block, place, advice),
        },
        Some(Mark::Assign) => tell_assignment(types, block, place, at, advice),
        Some(Mark::For) => tell_counter(block, place, advice),
        Some(Mark::Case) => {
            advice.said.put("CASE chooses by an integer, and this is ");
            advice.said.put(said(expression_type(block, place)));
            advice.end("write IF .. THEN .. ELSE", "");
        }
        Some(_) => tell_operator(block, place, advice),
        None => tell_call(block, place, text, advice),
    }
}
