//! Signs and words that are nearly right: what they are meant to be.

use crate::stopped::Stopped;
use fb_lex::{Kind, Token};
use fb_words::Mark;
use fbr_advice::advice::Advice;
use fbr_advice::tokens::{closer_of, mark_of, name_of, put_mark, put_spelled};
use fbr_places::{Named, tell_where};

// How a TIME is written.
const UNITS: &str =
    "write whole numbers of d, h, m, s and ms in this order, each at most once, as T#1m_30s";

// Pairs of signs, and what there is to say of them, a line each.
const PAIRS: &str = "== there is no `==`: write `=`
=> there is no `=>`: write `>=`
=< there is no `=<`: write `<=`
>< there is no `><`: write `<>`
&& there is no `&&`: write AND
=: there is no `=:`: an assignment is written `:=`
+= there is no `+=`: write the variable on both sides, as `X := X + 1`
-= there is no `-=`: write the variable on both sides, as `X := X - 1`
*= there is no `*=`: write the variable on both sides, as `X := X * 2`
/= there is no `/=`: write `<>` where two values differ, and `X := X / 2` to divide
++ there is no `++`: write `X := X + 1`
-- there is no `--`: write `X := X - 1`
/* there is no `/*`: write a comment as `(* .. *)`
*) there is no open comment for `*)` to close: remove it; comments do not nest, and the first `*)` ends one
... there is no `...`: write two dots, as 0..3";

// The letters, digits, `_` and `#` of a text from a byte on.
fn run_at(text: &str, at: usize) -> &str {
    let rest = text.get(at..).unwrap_or("");
    let mut end: usize = 0;
    for (index, character) in rest.char_indices() {
        let is_part = character.is_ascii_alphanumeric() || character == '_' || character == '#';
        if is_part && index == end {
            end = index.saturating_add(1);
        }
    }
    rest.get(..end).unwrap_or("")
}

// Whether a token begins right where another one ends.
fn is_joined(first: Option<&Token>, second: Option<&Token>) -> bool {
    match (first, second) {
        (Some(first), Some(second)) => first.end == second.start,
        _ => false,
    }
}

// What there is to say of two signs of which the first or the second is the token that was found.
fn said_of_pair(stopped: &Stopped, text: &str) -> Option<&'static str> {
    let last = stopped.before.last();
    let is_behind = is_joined(last, stopped.found.as_ref()) && name_of(last).is_none();
    let start = match last {
        Some(token) if is_behind => token.start,
        _ => stopped.at,
    };
    let rest = text.get(start..).unwrap_or("");
    let own = text.get(stopped.at..).unwrap_or("");
    for line in PAIRS.split('\n') {
        if let Some((pair, says)) = line.split_once(' ') {
            if rest.starts_with(pair) || own.starts_with(pair) {
                return Some(says);
            }
        }
    }
    let behind = own.strip_prefix(':').unwrap_or("").trim_start();
    let is_colon = matches!(mark_of(stopped.found.as_ref()), Some(Mark::Colon));
    if is_colon && behind.starts_with('=') {
        return Some("`:=` is one sign: write it without a space in it");
    }
    None
}

// Whether letters name a unit of time.
fn is_unit(letters: &str) -> bool {
    for unit in ["D", "H", "M", "S", "MS", "SEC", "MIN", "US", "NS"] {
        if unit == letters {
            return true;
        }
    }
    false
}

// Says that two numbers around a comma are no fraction; and whether they are meant as one.
fn tell_fraction(stopped: &Stopped, text: &str, advice: &mut Advice) -> bool {
    let (last, found, next) = (
        stopped.before.last(),
        stopped.found.as_ref(),
        stopped.next.as_ref(),
    );
    let is_one = is_joined(last, found) && is_joined(found, next);
    let is_index = matches!(stopped.open(), Some((Mark::LBracket, _)));
    if !is_one || is_index || !matches!(mark_of(found), Some(Mark::Comma)) {
        return false;
    }
    match (last, next) {
        (Some(whole), Some(part)) if is_number(whole) && is_number(part) => {
            put_spelled(
                text.get(whole.start..part.end).unwrap_or(""),
                &mut advice.said,
            );
            advice.put(
                " is not a number, for there are no fractions: count in a smaller unit, or write a whole number",
            );
            true
        }
        _ => false,
    }
}

// Whether a token is a number without a type.
fn is_number(token: &Token) -> bool {
    matches!(&token.kind, Kind::Number(_))
}

// Says what a number or a time is that letters or digits stand right behind.
fn tell_run(stopped: &Stopped, text: &str, advice: &mut Advice) -> bool {
    let (Some(last), Some(found)) = (stopped.before.last(), &stopped.found) else {
        return false;
    };
    if last.end != found.start {
        return false;
    }
    let run = run_at(text, last.start);
    let (is_time, remedy) = match (&last.kind, &found.kind) {
        (Kind::Duration(_, _), Kind::Name(_) | Kind::Number(_)) => (true, UNITS),
        (Kind::Number(_), Kind::Name(letters)) if is_unit(letters.as_str()) => (true, ""),
        (Kind::Number(_), Kind::Name(_)) => (
            false,
            "write whole numbers, as 1200, or 16#1F by their hexadecimal digits",
        ),
        _ => return false,
    };
    put_spelled(run, &mut advice.said);
    advice.said.put(if is_time {
        " is not a time"
    } else {
        " is not a number"
    });
    match remedy {
        "" => advice.end("write a time as T#", run),
        _ => advice.end(remedy, ""),
    }
    true
}

// Says what a name is of which a `-` or a digit at its beginning is no part.
fn tell_name(stopped: &Stopped, text: &str, advice: &mut Advice) -> bool {
    let (last, found, next) = (
        stopped.before.last(),
        stopped.found.as_ref(),
        stopped.next.as_ref(),
    );
    let is_next = is_joined(found, next);
    let is_behind = is_joined(last, found);
    match found {
        Some(token) if matches!(mark_of(found), Some(Mark::Minus)) => {
            let Some(name) = name_of(last) else {
                return false;
            };
            if !is_next || !is_behind {
                return false;
            }
            advice.said.put("a name cannot contain `-`\n");
            advice.remedy.put("write ");
            advice.remedy.put(name);
            advice.remedy.put("_");
            advice.remedy.put(run_at(text, token.end));
            true
        }
        Some(token) if is_next && name_of(next).is_some() && !is_behind => {
            if !matches!(&token.kind, Kind::Number(_)) {
                return false;
            }
            put_spelled(run_at(text, token.start), &mut advice.said);
            advice.said.put(" is not a name");
            advice.end("begin a name with a letter or `_`", "");
            true
        }
        _ => false,
    }
}

// The name that a token is, if it looks like an END.
fn end_in(token: Option<&Token>) -> Option<&str> {
    let name = name_of(token)?;
    let is_end = matches!(name, "END" | "ENDIF" | "ENDFOR" | "ENDCASE" | "ENDVAR");
    if is_end || name.starts_with("END_") {
        Some(name)
    } else {
        None
    }
}

// The word among the last two tokens that looks like an END, and is none. A sign behind it, but for a `;`, makes it a variable.
fn end_word(stopped: &Stopped) -> Option<&str> {
    let found = stopped.found.as_ref();
    let is_ended = match mark_of(found) {
        Some(mark) => mark.sign().is_empty() || matches!(mark, Mark::Semicolon),
        None => true,
    };
    if is_ended {
        end_in(found).or(end_in(stopped.before.last()))
    } else {
        None
    }
}

// Says which END closes what is open, where a word was found that looks like one.
fn tell_end(stopped: &Stopped, app: Named<'_>, advice: &mut Advice) -> bool {
    let (Some(word), Some((open, at))) = (end_word(stopped), stopped.open()) else {
        return false;
    };
    let Some(closer) = closer_of(open) else {
        return false;
    };
    put_mark(open, &mut advice.said);
    advice.said.put(", open since ");
    tell_where(app, at, &mut advice.said);
    advice.said.put(", is not closed by ");
    advice.said.put(word);
    advice.end("write ", closer.word());
    true
}

/// Says what a sign, a number, a name or an END is meant to be that is nearly right; and whether it is one.
pub fn tell_slip(stopped: &Stopped, app: Named<'_>, advice: &mut Advice) -> bool {
    if let Some(says) = said_of_pair(stopped, app.text) {
        advice.put(says);
        return true;
    }
    tell_run(stopped, app.text, advice)
        || tell_fraction(stopped, app.text, advice)
        || tell_name(stopped, app.text, advice)
        || tell_end(stopped, app, advice)
}
