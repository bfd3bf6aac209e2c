//! Notes on charts: states that no transition leads to or leaves, algorithms that no state runs, event outputs that none emits, and event inputs that no transition waits
//! for.

use crate::noted::{NoteKind, Noting};
use fb_tree::{BlockTree, ChartTree};

// Whether an action of a chart runs an algorithm, or emits an event output.
fn is_done(chart: &ChartTree, wanted: &str, is_event: bool) -> bool {
    for state in &chart.states {
        for action in &state.actions {
            let done = if is_event {
                &action.output
            } else {
                &action.algorithm
            };
            if let Some(name) = done {
                if name.text.as_str() == wanted {
                    return true;
                }
            }
        }
    }
    false
}

// Whether a transition from another state leads to a state.
fn is_entered(chart: &ChartTree, wanted: &str) -> bool {
    for transition in &chart.transitions {
        if transition.target.text.as_str() == wanted && transition.source.text.as_str() != wanted {
            return true;
        }
    }
    false
}

// Whether a transition leaves a state, perhaps to come back to it.
fn is_left(chart: &ChartTree, wanted: &str) -> bool {
    for transition in &chart.transitions {
        if transition.source.text.as_str() == wanted {
            return true;
        }
    }
    false
}

// Whether a transition waits for an event.
fn is_awaited(chart: &ChartTree, wanted: &str) -> bool {
    for transition in &chart.transitions {
        if let Some(event) = &transition.event {
            if event.text.as_str() == wanted {
                return true;
            }
        }
    }
    false
}

// Whether each event of a block can let a chart go on: by a guard alone, or by a transition without a condition from its first state.
fn is_moved_by_all(chart: &ChartTree) -> bool {
    for transition in &chart.transitions {
        let is_first = match chart.states.first() {
            Some(state) => state.name.text.as_str() == transition.source.text.as_str(),
            None => false,
        };
        if transition.event.is_none() && (transition.guard.is_some() || is_first) {
            return true;
        }
    }
    false
}

// Writes the notes on event inputs that no transition waits for.
fn note_events(block: &BlockTree, chart: &ChartTree, notes: &mut Noting) {
    if is_moved_by_all(chart) {
        return;
    }
    for event in &block.event_inputs {
        let name = event.name.text.as_str();
        if !is_awaited(chart, name) {
            notes.begin(NoteKind::EventNeverAwaited, event.name.at);
            let owner = block.name.text.as_str();
            notes.put("no transition of ", owner, " waits for ", name);
        }
    }
}

/// Writes the notes on the chart of a basic block type.
pub fn note_chart(block: &BlockTree, chart: &ChartTree, notes: &mut Noting) {
    let owner = block.name.text.as_str();
    note_events(block, chart, notes);
    for event in &block.event_outputs {
        let name = event.name.text.as_str();
        if !is_done(chart, name, true) {
            notes.begin(NoteKind::EventNeverEmitted, event.name.at);
            notes.put("no state of ", owner, " emits ", name);
        }
    }
    let mut is_first = true;
    for state in &chart.states {
        let name = state.name.text.as_str();
        let is_begin = is_first;
        is_first = false;
        if !is_begin && !is_entered(chart, name) {
            notes.begin(NoteKind::StateNeverEntered, state.name.at);
            notes.put("no transition of ", owner, " leads to ", name);
        } else if !is_left(chart, name) {
            notes.begin(NoteKind::StateWithoutExit, state.name.at);
            notes.put("no transition of ", owner, " leaves ", name);
        }
    }
    for algorithm in &chart.algorithms {
        let name = algorithm.name.text.as_str();
        if !is_done(chart, name, false) {
            notes.begin(NoteKind::AlgorithmNeverRun, algorithm.name.at);
            notes.put("no state of ", owner, " runs ", name);
        }
    }
}
