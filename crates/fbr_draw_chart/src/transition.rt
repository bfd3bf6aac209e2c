//! The transitions of a chart, as edges.

use crate::chart::Chart;
use crate::guard::{guard_in, spelled};
use fb_tree::{StateTree, TransitionTree};
use fbr_draw::shown;
use fbr_places::Writing;
use std::alloc::AllocError;

// The number of a state.
fn number_of(states: &[StateTree], name: &str) -> Option<usize> {
    for (number, state) in states.iter().enumerate() {
        if state.name.text.as_str() == name {
            return Some(number);
        }
    }
    None
}

// How many of these transitions leave a state.
fn leaving(transitions: &[TransitionTree], state: &str) -> usize {
    let mut count: usize = 0;
    for transition in transitions {
        if transition.source.text.as_str() == state {
            count = count.saturating_add(1);
        }
    }
    count
}

// Writes when a transition is tried among those that leave its state, where there are others.
fn write_order(all: &[TransitionTree], index: usize, state: &str, writing: &mut Writing) {
    if leaving(all, state) < 2 {
        return;
    }
    let before = leaving(all.get(..index).unwrap_or(&[]), state);
    writing.put("<FONT POINT-SIZE=\"8\" COLOR=\"gray40\">");
    writing.show(&before.saturating_add(1));
    writing.put(".</FONT> ");
}

// Writes when a transition is crossed: at an event, where a guard holds, or freely.
fn write_condition(
    chart: &Chart<'_>,
    transition: &TransitionTree,
    writing: &mut Writing,
) -> Result<(), AllocError> {
    let app = chart.picture.app;
    let text = app.text;
    if let Some(event) = &transition.event {
        writing.put(spelled(text, event));
    }
    match &transition.guard {
        Some(guard) => {
            let guard = guard_in(chart.alloc, text, guard.at)?;
            let guard = shown(chart.alloc, guard.as_str())?;
            writing.put(if transition.event.is_some() { " " } else { "" });
            writing.put(guard.as_str());
            Ok(())
        }
        None => {
            writing.put(if transition.event.is_some() { "" } else { "1" });
            Ok(())
        }
    }
}

// Begins the edge of a transition, up to its label.
fn open_edge(states: &[StateTree], transition: &TransitionTree, writing: &mut Writing) {
    let from = number_of(states, transition.source.text.as_str()).unwrap_or(0);
    let to = number_of(states, transition.target.text.as_str()).unwrap_or(0);
    writing.put("  s");
    writing.show(&from);
    writing.put(" -> s");
    writing.show(&to);
    writing.put(" [label=<&#160;");
}

/// Draws the transitions of a chart, in text order.
pub fn draw_transitions(chart: &Chart<'_>, writing: &mut Writing) -> Result<(), AllocError> {
    let all = chart.body.transitions.as_slice();
    for (index, transition) in all.iter().enumerate() {
        open_edge(&chart.body.states, transition, writing);
        write_order(all, index, transition.source.text.as_str(), writing);
        write_condition(chart, transition, writing)?;
        writing.put(">];\n");
    }
    Ok(())
}
