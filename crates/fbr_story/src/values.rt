//! Values of the types of the language.

use crate::reading::Reader;
use fb_lex::Kind;
use fb_words::{ElemType, Mark};
use fbr_names::Fault;
use fbr_places::Writing;

// A number of a sign and a size.
fn signed(is_negative: bool, size: u64) -> i128 {
    let size = i128::from(size);
    if is_negative { 0 - size } else { size }
}

// The number that a token stands for in a type.
fn number_of(kind: &Kind, is_negative: bool, of_type: ElemType) -> Option<i128> {
    match (kind, of_type) {
        (Kind::Mark(Mark::True), ElemType::Bool) if !is_negative => Some(1),
        (Kind::Mark(Mark::False), ElemType::Bool) if !is_negative => Some(0),
        (Kind::Duration(minus, size), ElemType::Time) if !is_negative => {
            Some(signed(*minus, *size))
        }
        (_, ElemType::Bool | ElemType::Time) => None,
        (Kind::Number(size), _) => Some(signed(is_negative, *size)),
        (Kind::Typed(said, minus, size), _) if !is_negative && *said == of_type => {
            Some(signed(*minus, *size))
        }
        _ => None,
    }
}

// What a value of a type looks like.
fn form(of_type: ElemType) -> &'static str {
    match of_type {
        ElemType::Bool => "TRUE or FALSE",
        ElemType::Time => "a TIME, such as T#500ms,",
        _ => "a number",
    }
}

// That a number is not in a type.
fn out_of_range(reader: &Reader<'_>, at: usize, of_type: ElemType) -> Fault {
    let mut writing = Writing::new(reader.alloc);
    writing.put("the values of ");
    writing.put(of_type.name());
    writing.put(" go from ");
    writing.show(&of_type.lowest());
    writing.put(" to ");
    writing.show(&of_type.highest());
    Fault::written(at, writing)
}

/// The value of a type that is to stand next.
pub(crate) fn read_value(reader: &mut Reader<'_>, of_type: ElemType) -> Result<i64, Fault> {
    let at = reader.start();
    let is_negative = reader.take_mark(Mark::Minus);
    let Some(token) = reader.peek(0) else {
        return Err(reader.expected(form(of_type)));
    };
    let Some(number) = number_of(&token.kind, is_negative, of_type) else {
        return Err(reader.expected(form(of_type)));
    };
    reader.pass();
    if !of_type.fits(number) {
        return Err(out_of_range(reader, at, of_type));
    }
    match i64::try_from(number) {
        Ok(value) => Ok(value),
        Err(_) => Err(out_of_range(reader, at, of_type)),
    }
}

// That there are more or fewer values than an instance takes.
fn other_count(reader: &Reader<'_>, at: usize, name: &str, types: &[ElemType]) -> Fault {
    let mut writing = Writing::new(reader.alloc);
    writing.put(name);
    match types.len() {
        0 => writing.put(" takes no values"),
        1 => writing.put(" takes 1 value: "),
        count => {
            writing.put(" takes ");
            writing.show(&count);
            writing.put(" values: ");
        }
    }
    for (index, of_type) in types.iter().enumerate() {
        writing.put(if index == 0 { "" } else { ", " });
        writing.put(of_type.name());
    }
    Fault::written(at, writing)
}

/// The values of an instance in brackets, which are to stand next. In place of one ANY may stand, where any is meant.
pub(crate) fn read_values(
    reader: &mut Reader<'_>,
    name: &str,
    types: &[ElemType],
    may_be_any: bool,
) -> Result<Vec<Option<i64>>, Fault> {
    let mut values = Vec::new(reader.alloc);
    reader.mark(Mark::LParen, "`(`")?;
    for (index, of_type) in types.iter().enumerate() {
        let at = reader.start();
        if reader.is_mark(Mark::RParen) {
            return Err(other_count(reader, at, name, types));
        }
        if index > 0 {
            reader.mark(Mark::Comma, "`,`")?;
        }
        if may_be_any && reader.take_word("ANY") {
            values.push(None)?;
        } else {
            values.push(Some(read_value(reader, *of_type)?))?;
        }
    }
    if reader.is_mark(Mark::Comma) || (types.is_empty() && !reader.is_mark(Mark::RParen)) {
        let at = reader.start();
        return Err(other_count(reader, at, name, types));
    }
    reader.mark(Mark::RParen, "`)`")?;
    Ok(values)
}

/// Writes a value of a type.
pub fn show_value(of_type: ElemType, value: i64, writing: &mut Writing) {
    match of_type {
        ElemType::Bool => writing.put(if value == 0 { "FALSE" } else { "TRUE" }),
        ElemType::Time => {
            writing.put("T#");
            writing.show(&value);
            writing.put("ms");
        }
        _ => writing.show(&value),
    }
}
