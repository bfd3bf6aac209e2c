//! Tokens that belong elsewhere: a guard without brackets, types without brackets, a comma for a semicolon, and what comes behind the SYSTEM.

use crate::stopped::Stopped;
use fb_lex::{Kind, Token};
use fb_words::Mark;
use fbr_advice::advice::Advice;
use fbr_advice::tokens::{mark_of, name_of};
use fbr_places::{Named, tell_where};
use std::alloc::AllocError;

// The innermost word or sign that is open.
fn opener(stopped: &Stopped) -> Option<Mark> {
    let (open, _) = stopped.open()?;
    Some(open)
}

// The token so many before the last one.
fn token_before(stopped: &Stopped, count: usize) -> Option<&Token> {
    let index = stopped.before.len().checked_sub(count)?.checked_sub(1)?;
    stopped.before.get(index)
}

// What there is to say of a token right behind the `:=` of a transition.
fn said_of_condition(found: Option<Mark>) -> Option<&'static str> {
    match found? {
        Mark::True => Some("the condition that always holds is 1: write `1`"),
        Mark::Not | Mark::LParen => {
            Some("a guard is written in square brackets: write `[..]` around it")
        }
        _ => None,
    }
}

// What there is to say of a sign or a word behind the event of a transition; of one that goes on with a guard, nothing yet.
fn said_of_guard(found: Option<Mark>) -> Option<&'static str> {
    match found? {
        Mark::Or => Some("a transition waits for one event: write a transition for each event"),
        Mark::And | Mark::Ampersand | Mark::LParen => Some(""),
        Mark::Equal
        | Mark::NotEqual
        | Mark::Less
        | Mark::Greater
        | Mark::LessEqual
        | Mark::GreaterEqual
        | Mark::Plus
        | Mark::Minus => Some("a guard is written in square brackets: write `[..]` around it"),
        _ => None,
    }
}

// Says what there is to do about a condition that is no event, no guard and no 1; and whether it is one.
fn tell_condition(stopped: &Stopped, advice: &mut Advice) -> bool {
    let last = token_before(stopped, 0);
    let found = mark_of(stopped.found.as_ref());
    let is_first = matches!(mark_of(last), Some(Mark::Assign));
    let is_event = matches!(mark_of(token_before(stopped, 1)), Some(Mark::Assign));
    let says = if is_first {
        said_of_condition(found)
    } else if is_event {
        said_of_guard(found)
    } else {
        None
    };
    match (says, name_of(last)) {
        (Some(""), Some(name)) => {
            advice
                .said
                .put("a guard is written in square brackets after its event\n");
            advice.remedy.put("write `");
            advice.remedy.put(name);
            advice.remedy.put(" [..]`");
            true
        }
        (None | Some(""), _) => false,
        (Some(says), _) => {
            advice.put(says);
            true
        }
    }
}

// What there is to say of a token in the declaration of a variable.
fn said_of_variable(stopped: &Stopped) -> Option<&'static str> {
    let last = mark_of(token_before(stopped, 0));
    match (last, mark_of(stopped.found.as_ref())) {
        (Some(Mark::Colon), Some(Mark::LParen)) => Some(
            "there are no enumerations: count in a USINT, and say in a comment what each number means",
        ),
        (Some(Mark::Array), Some(Mark::LParen)) => {
            Some("bounds are written in square brackets: write ARRAY [0..3] OF INT")
        }
        _ => None,
    }
}

// What there is to say of a token in the declaration of an instance.
fn said_of_instance(stopped: &Stopped) -> Option<&'static str> {
    let last = mark_of(token_before(stopped, 0));
    let found = stopped.found.as_ref();
    match (last, mark_of(found)) {
        (Some(Mark::RParen), Some(Mark::LBracket | Mark::LParen)) => {
            Some("types come before the parameters: write OUTPUT[BOOL](ID := 1)")
        }
        (Some(Mark::LParen), Some(mark)) if mark.elem_type().is_some() => {
            Some("types are written in square brackets: write OUTPUT[BOOL](ID := 1)")
        }
        (Some(Mark::LBracket), Some(Mark::RBracket)) => Some(
            "square brackets without types: leave them out where nothing is sent, or name a type",
        ),
        (Some(Mark::LParen), None) => match &found?.kind {
            Kind::Number(_) => Some("a parameter has a name: write `ID := 1`"),
            _ => None,
        },
        _ => None,
    }
}

// What there is to say of a statement that begins with a name and a parenthesis.
fn said_of_call(stopped: &Stopped, text: &str) -> &'static str {
    let rest = text.get(stopped.at..).unwrap_or("");
    match rest.split_once(')') {
        Some((_, behind)) if behind.trim_start().starts_with(":=") => {
            "an index is written in square brackets: write `[..]`"
        }
        _ => {
            "an algorithm cannot call a block or another algorithm: let a state run it, or an instance that an event reaches"
        }
    }
}

// What there is to say of a `;` or a `:` that stands too soon, or behind an END that none follows.
fn said_of_end(stopped: &Stopped) -> Option<&'static str> {
    let last = mark_of(token_before(stopped, 0));
    let second = mark_of(token_before(stopped, 1));
    match (mark_of(stopped.found.as_ref())?, last, second) {
        (Mark::Semicolon, None, Some(Mark::To))
            if matches!(opener(stopped), Some(Mark::EcTransitions)) => {
            Some("a transition needs a condition: write `:= EVENT`, or `:= 1` if it always holds")
        }
        (Mark::Semicolon, Some(mark), _) if mark.word().starts_with("END_") => {
            Some("an END that closes a section has no `;` after it: remove it")
        }
        (Mark::Colon, None, Some(Mark::Algorithm)) => {
            Some("the language of the algorithm is missing: write `IN ST:`")
        }
        _ => None,
    }
}

// What there is to say of a token that stands in what is open there.
fn said_in(stopped: &Stopped, text: &str) -> Option<&'static str> {
    let found = mark_of(stopped.found.as_ref());
    match (opener(stopped)?, found) {
        (Mark::EcTransitions, Some(Mark::Arrow)) => {
            Some("a transition is written `STATE TO STATE := ..`: write TO")
        }
        (Mark::EventConnections | Mark::DataConnections, Some(Mark::Arrow | Mark::Assign)) => {
            Some("a connection leads from an output to an input: write `A.OUT TO B.IN`")
        }
        (Mark::LBracket, Some(Mark::RBracket)) if is_bound(stopped) => {
            Some("an array needs two bounds: write ARRAY [0..3] OF INT")
        }
        (Mark::LBracket, Some(Mark::Comma)) if matches!(stopped.section(), Some(Mark::Algorithm)) =>
            {
                Some(
                    "an array has one index: calculate it, as X * 4 + Y; there are no arrays of arrays",
                )
            }
        (Mark::VarInput | Mark::VarOutput | Mark::Var, _) => said_of_variable(stopped),
        (Mark::Fbs, _) => said_of_instance(stopped),
        (Mark::LParen | Mark::LBracket, _) => match stopped.section() {
            Some(Mark::Fbs) => said_of_instance(stopped),
            _ => None,
        },
        (Mark::Algorithm | Mark::If | Mark::Case | Mark::For, Some(Mark::LParen)) => {
            if name_of(token_before(stopped, 0)).is_some() && !is_operand(stopped) {
                Some(said_of_call(stopped, text))
            } else {
                None
            }
        }
        _ => None,
    }
}

// Whether the last token is the single bound of an array.
fn is_bound(stopped: &Stopped) -> bool {
    matches!(mark_of(token_before(stopped, 1)), Some(Mark::LBracket))
        && matches!(mark_of(token_before(stopped, 2)), Some(Mark::Array))
}

// Whether the last token stands behind a sign that an operand follows.
fn is_operand(stopped: &Stopped) -> bool {
    match mark_of(token_before(stopped, 1)) {
        Some(mark) => !mark.sign().is_empty() && !matches!(mark, Mark::Semicolon | Mark::Colon),
        None => false,
    }
}

// What ends with a `;` in a section.
fn item_of(section: Mark) -> Option<&'static str> {
    match section {
        Mark::EventInput | Mark::EventOutput => Some("an event"),
        Mark::VarInput | Mark::VarOutput | Mark::Var => Some("a variable"),
        Mark::EcStates => Some("a state"),
        Mark::EcTransitions => Some("a transition"),
        Mark::Fbs => Some("an instance"),
        Mark::EventConnections | Mark::DataConnections => Some("a connection"),
        Mark::Algorithm | Mark::If | Mark::Case | Mark::For => Some("a statement"),
        _ => None,
    }
}

// Says which of `,` and `;` was meant where the other one was found.
fn tell_comma(stopped: &mut Stopped, text: &str, advice: &mut Advice) -> Result<bool, AllocError> {
    let found = mark_of(stopped.found.as_ref());
    let open = opener(stopped);
    match found {
        Some(Mark::Comma) => {
            let Some(item) = item_of(open.unwrap_or(Mark::Comma)) else {
                return Ok(false);
            };
            if !stopped.takes(Kind::Mark(Mark::Semicolon))? {
                return Ok(false);
            }
            advice.said.put(item);
            advice.said.put(" ends with `;`, not with `,`");
            advice.end("write `;`", "");
            Ok(true)
        }
        Some(Mark::Semicolon) if matches!(open, Some(Mark::LParen)) => {
            let rest = text.get(stopped.at..).unwrap_or("");
            let behind = rest.strip_prefix(';').unwrap_or("");
            let inside = match behind.split_once(')') {
                Some((inside, _)) => inside,
                None => return Ok(false),
            };
            if inside.contains(';') || inside.contains('(') {
                return Ok(false);
            }
            if !stopped.takes(Kind::Mark(Mark::Comma))? {
                return Ok(false);
            }
            advice.put("parameters and arguments are separated by `,`, not by `;`: write `,`");
            Ok(true)
        }
        _ => Ok(false),
    }
}

// Says that a `,` is missing in a list behind WITH, where the line goes on.
fn tell_with(stopped: &mut Stopped, text: &str, advice: &mut Advice) -> Result<bool, AllocError> {
    let is_event = matches!(opener(stopped), Some(Mark::EventInput | Mark::EventOutput));
    let is_list = match mark_of(token_before(stopped, 1)) {
        Some(Mark::With | Mark::Comma) => name_of(token_before(stopped, 0)).is_some(),
        _ => false,
    };
    let Some(name) = name_of(stopped.found.as_ref()) else {
        return Ok(false);
    };
    let gap = text.get(stopped.end..stopped.at).unwrap_or("\n");
    if !is_event || !is_list || gap.contains('\n') {
        return Ok(false);
    }
    advice.said.put("`,` is missing before ");
    advice.said.put(name);
    advice.end("write `,` between the names after WITH", "");
    Ok(true)
}

// Says that a text of types has no SYSTEM, where it ends; and whether it is so.
fn tell_types_alone(stopped: &Stopped, advice: &mut Advice) -> bool {
    let last = mark_of(stopped.before.last());
    if stopped.found.is_some() || !matches!(last, Some(Mark::EndFunctionBlock)) {
        return false;
    }
    advice.put(
        "the text ends without its SYSTEM: add SYSTEM .. END_SYSTEM, which says where instances of these types run",
    );
    true
}

// Says what there is to do about what comes behind the SYSTEM; and whether it does.
fn tell_system(stopped: &Stopped, app: Named<'_>, advice: &mut Advice) -> bool {
    let first = stopped.before.first();
    let (Some(found), Some(system), Some(Mark::System), Some(Mark::EndSystem)) = (
        &stopped.found,
        first,
        mark_of(first),
        mark_of(stopped.before.last()),
    ) else {
        return false;
    };
    let (says, remedy) = match mark_of(Some(found)) {
        Some(Mark::System) => (
            "a text has one SYSTEM, and the first is at ",
            "put the devices of both into one SYSTEM, or write two texts",
        ),
        Some(Mark::FunctionBlock) => (
            "types must come before the SYSTEM, which is at ",
            "move this type before it",
        ),
        _ => (
            "a text ends with its SYSTEM, which is at ",
            "remove what follows",
        ),
    };
    advice.said.put(says);
    tell_where(app, system.start, &mut advice.said);
    advice.end(remedy, "");
    true
}

/// Says where a token belongs that stands elsewhere, if it is known; and whether it is.
pub fn tell_misplaced(
    stopped: &mut Stopped,
    app: Named<'_>,
    advice: &mut Advice,
) -> Result<bool, AllocError> {
    if tell_system(stopped, app, advice) || tell_types_alone(stopped, advice) {
        return Ok(true);
    }
    if matches!(opener(stopped), Some(Mark::EcTransitions)) && tell_condition(stopped, advice) {
        return Ok(true);
    }
    if let Some(says) = said_of_end(stopped).or(said_in(stopped, app.text)) {
        advice.put(says);
        return Ok(true);
    }
    if tell_with(stopped, app.text, advice)? {
        return Ok(true);
    }
    tell_comma(stopped, app.text, advice)
}
