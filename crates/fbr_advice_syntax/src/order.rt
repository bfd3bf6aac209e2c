//! Sections out of order or twice, and reserved words where a name stands.

use crate::stopped::Stopped;
use fb_lex::Token;
use fb_words::Mark;
use fbr_advice::advice::Advice;
use fbr_advice::tokens::{mark_of, put_mark};
use fbr_places::{Named, tell_where};
use std::alloc::AllocError;

const OF_CHARTS: &str =
    "keep the order EVENT_INPUT, EVENT_OUTPUT, VAR_INPUT, VAR_OUTPUT, VAR, EC_STATES, EC_TRANSITIONS, ALGORITHM";

const OF_COMPOSITES: &str =
    "keep the order EVENT_INPUT, EVENT_OUTPUT, VAR_INPUT, VAR_OUTPUT, FBS, EVENT_CONNECTIONS, DATA_CONNECTIONS";

const OF_RESOURCES: &str = "keep the order FBS, EVENT_CONNECTIONS, DATA_CONNECTIONS";

// The place of a section among those of a type or a resource.
fn rank(mark: Mark) -> Option<u8> {
    match mark {
        Mark::EventInput => Some(0),
        Mark::EventOutput => Some(1),
        Mark::VarInput => Some(2),
        Mark::VarOutput => Some(3),
        Mark::Var => Some(4),
        Mark::EcStates | Mark::Fbs => Some(5),
        Mark::EcTransitions | Mark::EventConnections => Some(6),
        Mark::Algorithm | Mark::DataConnections => Some(7),
        _ => None,
    }
}

// Whether a section is one of a chart; nothing where any type may have it.
fn is_of_chart(mark: Mark) -> Option<bool> {
    match mark {
        Mark::Var | Mark::EcStates | Mark::EcTransitions | Mark::Algorithm => Some(true),
        Mark::Fbs | Mark::EventConnections | Mark::DataConnections => Some(false),
        _ => None,
    }
}

// The order of sections around one that was found behind another one.
fn order_of(first: Mark, found: Mark, is_resource: bool) -> &'static str {
    if is_resource {
        return OF_RESOURCES;
    }
    match is_of_chart(first).or(is_of_chart(found)) {
        Some(false) => OF_COMPOSITES,
        _ => OF_CHARTS,
    }
}

/// A section that stands before the one that was found, and why both do not.
#[derive(Clone, Copy)]
struct Clash {
    mark: Mark,
    at: usize,
    is_mixed: bool,
}

// The first section of the type or the resource which the one that was found may not stand behind.
fn clash_of(before: &[Token], found: Mark) -> Option<Clash> {
    let own = rank(found)?;
    let mut clash = None;
    for token in before {
        let Some(mark) = mark_of(Some(token)) else {
            continue;
        };
        if matches!(mark, Mark::FunctionBlock | Mark::Resource) {
            clash = None;
        }
        if let Some(other) = rank(mark) {
            let is_mixed = match (is_of_chart(mark), is_of_chart(found)) {
                (Some(one), Some(two)) => one != two,
                _ => false,
            };
            let is_again = other == own && !matches!(mark, Mark::Algorithm);
            let is_late = is_mixed || is_again || other > own;
            if clash.is_none() && is_late {
                clash = Some(Clash {
                    mark,
                    at: token.start,
                    is_mixed,
                });
            }
        }
    }
    clash
}

/// Says why a section cannot stand behind those before it, and which order there is; and whether the first is known.
pub fn tell_order(stopped: &Stopped, app: Named<'_>, advice: &mut Advice) -> bool {
    let Some(found) = mark_of(stopped.found.as_ref()) else {
        return false;
    };
    let is_resource = match stopped.open() {
        Some((Mark::FunctionBlock, _)) => false,
        Some((Mark::Resource, _)) => true,
        _ => return false,
    };
    let Some(clash) = clash_of(&stopped.before, found) else {
        if rank(found).is_some() {
            advice.remedy.put(order_of(found, found, is_resource));
        }
        return false;
    };
    put_mark(found, &mut advice.said);
    if clash.mark == found {
        advice.said.put(" is here a second time, after the one");
    } else {
        advice.said.put(if clash.is_mixed {
            " cannot be combined with "
        } else {
            " must come before "
        });
        put_mark(clash.mark, &mut advice.said);
        advice.said.put(", which is");
    }
    advice.said.put(" at ");
    tell_where(app, clash.at, &mut advice.said);
    if clash.is_mixed {
        advice.end(
            "a composite has only FBS and connections: put variables, states and algorithms into a basic block, and make an instance of it here",
            "",
        );
    } else if clash.mark == found {
        advice.end("write all of it into that section", "");
    } else {
        advice.end(order_of(clash.mark, found, is_resource), "");
    }
    true
}

/// Says that a reserved word was found where a name stands; and whether it is so.
pub fn tell_reserved(stopped: &mut Stopped, advice: &mut Advice) -> Result<bool, AllocError> {
    let Some(mark) = mark_of(stopped.found.as_ref()) else {
        return Ok(false);
    };
    let word = mark.word();
    if word.is_empty() || !stopped.takes_name()? {
        return Ok(false);
    }
    advice.said.put(word);
    advice.said.put(" is a reserved word and cannot be a name");
    advice.end("take another name, as MY_", word);
    Ok(true)
}
