//! Tokens that cannot stand where they do: what was found, and what could stand there.

use crate::expected::{tell_expected, tell_near};
use crate::misplaced::tell_misplaced;
use crate::order::{tell_order, tell_reserved};
use crate::slips::tell_slip;
use crate::stopped::{Stopped, stopped_at};
use fb_lex::Kind;
use fb_words::Mark;
use fbr_advice::advice::Advice;
use fbr_advice::foreign::{foreign_text, foreign_token};
use fbr_advice::tokens::{closer_of, mark_of, put_mark, put_token};
use fbr_places::{Named, Writing, tell_where};
use std::alloc::{AllocError, Global};

// Writes where a comment begins behind a byte and before the token that was found, and has a second beginning in it; and whether there is one.
fn tell_comment(stopped: &Stopped, app: Named<'_>, from: usize, advice: &mut Advice) -> bool {
    let mut at = from;
    let mut rest = app.text.get(at..stopped.at).unwrap_or("");
    for _ in 0..stopped.length {
        let Some((front, behind)) = rest.split_once("(*") else {
            return false;
        };
        let Some((inside, next)) = behind.split_once("*)") else {
            return false;
        };
        at = at.saturating_add(front.len());
        if inside.contains("(*") {
            advice.said.put("the comment of ");
            tell_where(app, at, &mut advice.said);
            advice
                .said
                .put(" has another `(*` in it: was it to end before?\n");
            advice
                .remedy
                .put("close each comment by its own `*)`: comments do not nest");
            return true;
        }
        at = at.saturating_add(inside.len()).saturating_add(4);
        rest = next;
    }
    false
}

// Writes that something is missing behind the last token that could stand; of what closes something, what is open.
fn tell_missing(stopped: &Stopped, missing: Mark, app: Named<'_>, advice: &mut Advice) {
    let writing = &mut advice.said;
    match missing {
        Mark::EndIf => writing.put("`END_IF;`"),
        Mark::EndCase => writing.put("`END_CASE;`"),
        Mark::EndFor => writing.put("`END_FOR;`"),
        _ => put_mark(missing, writing),
    }
    writing.put(" is missing here, before ");
    put_token(app.text, stopped.found.as_ref(), writing);
    match stopped.open() {
        Some((open, at)) if missing.word().starts_with("END_") => {
            writing.put(": ");
            put_mark(open, writing);
            writing.put(" is open since ");
            tell_where(app, at, writing);
        }
        _ => {}
    }
    writing.put("\n");
    advice.is_plain = true;
    if tell_comment(stopped, app, stopped.end, advice) {
        return;
    }
    advice.remedy.put("write it here");
    if stopped.is_else_if() {
        advice
            .remedy
            .put(", or ELSIF for ELSE IF, which opens an IF of its own");
    }
}

// Writes what an END would close, and where that is open.
fn tell_opener(stopped: &Stopped, end: Mark, app: Named<'_>, writing: &mut Writing) {
    match stopped.opened_for(end) {
        Some((opener, at)) => {
            put_mark(end, writing);
            writing.put(" would close ");
            put_mark(opener, writing);
            writing.put(", which is open since ");
            tell_where(app, at, writing);
            writing.put("\n");
        }
        None => {
            writing.put("nothing is open that ");
            put_mark(end, writing);
            writing.put(" closes\n");
        }
    }
}

// Writes what closes what is open, where an END or the end of the text was found; and of an END what it would close.
fn tell_closer(stopped: &Stopped, app: Named<'_>, advice: &mut Advice) {
    let found = mark_of(stopped.found.as_ref());
    let is_end = match found {
        Some(mark) => mark.word().starts_with("END_"),
        None => stopped.found.is_none(),
    };
    let Some((open, at)) = stopped.open() else {
        return;
    };
    let Some(closer) = closer_of(open) else {
        return;
    };
    let writing = &mut advice.said;
    if is_end {
        put_mark(open, writing);
        writing.put(" is open since ");
        tell_where(app, at, writing);
        writing.put(", and ");
        put_mark(closer, writing);
        writing.put(" closes it\n");
    }
    match found {
        Some(end) if is_end => tell_opener(stopped, end, app, writing),
        _ => {}
    }
    if is_end {
        advice.remedy.put("close what is open first: write ");
        put_mark(closer, &mut advice.remedy);
        advice.is_plain = true;
    }
}

// Writes that a number stands where another kind of constant, or a name, was found.
fn tell_constant(stopped: &mut Stopped, advice: &mut Advice) -> Result<(), AllocError> {
    let is_number = match &stopped.found {
        Some(token) => matches!(&token.kind, Kind::Number(_)),
        None => true,
    };
    if is_number || stopped.takes(Kind::Mark(Mark::True))? {
        return Ok(());
    }
    let name = String::from_str(stopped.alloc, "A")?;
    if stopped.takes(Kind::Number(2))? && !stopped.takes(Kind::Name(name))? {
        advice.remedy.put("write a number without a type: there are no named constants");
    }
    Ok(())
}

// Writes what was found, and what could stand there.
fn tell_found(
    stopped: &mut Stopped,
    app: Named<'_>,
    advice: &mut Advice,
) -> Result<(), AllocError> {
    advice.said.put("found ");
    put_token(app.text, stopped.found.as_ref(), &mut advice.said);
    tell_expected(stopped, &mut advice.said)?;
    if tell_comment(stopped, app, stopped.previous, advice) {
        return Ok(());
    }
    let (meant, says) = match mark_of(stopped.found.as_ref()) {
        Some(Mark::Equal) => (Mark::Assign, "write `:=` to assign"),
        Some(Mark::Assign) => (Mark::Equal, "write `=` to compare"),
        found => {
            tell_closer(stopped, app, advice);
            return if found.is_none() {
                tell_constant(stopped, advice)
            } else {
                Ok(())
            };
        }
    };
    if stopped.takes(Kind::Mark(meant))? {
        advice.remedy.put(says);
    }
    Ok(())
}

// Writes what this mistake is by name, if it is known; and whether it is. Nothing is missing before the token then.
fn tell_known(
    stopped: &mut Stopped,
    app: Named<'_>,
    advice: &mut Advice,
) -> Result<bool, AllocError> {
    let rest = app.text.get(stopped.at..).unwrap_or("");
    let found = foreign_token(&stopped.before, stopped.found.as_ref(), rest);
    if let Some(says) = foreign_text(app.text).or(found) {
        advice.put(says);
        return Ok(true);
    }
    if tell_slip(stopped, app, advice) || tell_misplaced(stopped, app, advice)? {
        return Ok(true);
    }
    tell_near(stopped, advice)
}

/// Writes what there is to say of a token that cannot stand at a byte, and what could; and tells at which byte that is: where something is missing before it, there.
pub fn tell_syntax(
    alloc: Global,
    app: Named<'_>,
    at: usize,
    advice: &mut Advice,
) -> Result<Option<usize>, AllocError> {
    let Some(mut stopped) = stopped_at(alloc, app.text, at)? else {
        return Ok(None);
    };
    if tell_known(&mut stopped, app, advice)? {
        return Ok(Some(at));
    }
    if let Some(mark) = stopped.missing()? {
        tell_missing(&stopped, mark, app, advice);
        return Ok(Some(stopped.end));
    }
    if !tell_order(&stopped, app, advice) && !tell_reserved(&mut stopped, advice)? {
        tell_found(&mut stopped, app, advice)?;
    }
    Ok(Some(at))
}
