//! Tokens around a place of a text.

use fb_lex::{Kind, Token};
use fb_words::Mark;
use fbr_places::Writing;

/// The sign or the reserved word that a token is.
pub fn mark_of(token: Option<&Token>) -> Option<Mark> {
    match &token?.kind {
        Kind::Mark(mark) => Some(*mark),
        _ => None,
    }
}

/// The name that a token is.
pub fn name_of(token: Option<&Token>) -> Option<&str> {
    match &token?.kind {
        Kind::Name(name) => Some(name.as_str()),
        _ => None,
    }
}

/// The index of the token that begins at a byte or behind it; how many there are where none does.
pub fn index_at(tokens: &[Token], at: usize) -> usize {
    let mut low: usize = 0;
    let mut high: usize = tokens.len();
    for _ in 0..64 {
        if low < high {
            let middle = low.saturating_add(high.saturating_sub(low) / 2);
            match tokens.get(middle) {
                Some(token) if token.start < at => low = middle.saturating_add(1),
                _ => high = middle,
            }
        }
    }
    low
}

/// What closes what a sign or a word opens; nothing where it opens nothing.
pub fn closer_of(mark: Mark) -> Option<Mark> {
    match mark {
        Mark::LParen => Some(Mark::RParen),
        Mark::LBracket => Some(Mark::RBracket),
        Mark::FunctionBlock => Some(Mark::EndFunctionBlock),
        Mark::EventInput | Mark::EventOutput => Some(Mark::EndEvent),
        Mark::VarInput | Mark::VarOutput | Mark::Var => Some(Mark::EndVar),
        Mark::EcStates => Some(Mark::EndStates),
        Mark::EcTransitions => Some(Mark::EndTransitions),
        Mark::Algorithm => Some(Mark::EndAlgorithm),
        Mark::Fbs => Some(Mark::EndFbs),
        Mark::EventConnections | Mark::DataConnections => Some(Mark::EndConnections),
        Mark::System => Some(Mark::EndSystem),
        Mark::Device => Some(Mark::EndDevice),
        Mark::Resource => Some(Mark::EndResource),
        Mark::If => Some(Mark::EndIf),
        Mark::Case => Some(Mark::EndCase),
        Mark::For => Some(Mark::EndFor),
        _ => None,
    }
}

/// The index of the innermost token that opens what is still open before the token of an index.
pub fn open_before(tokens: &[Token], index: usize) -> Option<usize> {
    let mut closed: usize = 0;
    for step in 0..index {
        let at = index.saturating_sub(step).saturating_sub(1);
        if let Some(mark) = mark_of(tokens.get(at)) {
            if matches!(mark, Mark::RParen | Mark::RBracket) || mark.word().starts_with("END_") {
                closed = closed.saturating_add(1);
            } else if closer_of(mark).is_some() {
                if closed == 0 {
                    return Some(at);
                }
                closed = closed.saturating_sub(1);
            }
        }
    }
    None
}

/// Writes how a sign or a word is written.
pub fn put_mark(mark: Mark, writing: &mut Writing) {
    let sign = mark.sign();
    if sign.is_empty() {
        writing.put(mark.word());
        return;
    }
    put_spelled(sign, writing);
}

/// Writes a piece of a text.
pub fn put_spelled(spelled: &str, writing: &mut Writing) {
    writing.put("`");
    writing.put(spelled);
    writing.put("`");
}

/// Writes a token of a text, or that the text ends.
pub fn put_token(text: &str, token: Option<&Token>, writing: &mut Writing) {
    let Some(found) = token else {
        writing.put("the end of the text");
        return;
    };
    match mark_of(token) {
        Some(mark) => put_mark(mark, writing),
        None => put_spelled(text.get(found.start..found.end).unwrap_or(""), writing),
    }
}
