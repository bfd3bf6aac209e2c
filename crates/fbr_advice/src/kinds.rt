//! What names stand for in a block type.

use crate::tokens::name_of;
use fb_lex::Token;
use fb_tree::{BlockTree, BodyTree, ChartTree, VariableTree};
use fbr_places::{Port, port_in, type_named};

/// What a name stands for.
#[derive(Clone, Copy, PartialEq, Eq)]
pub enum Known {
    EventInput,
    EventOutput,
    Input,
    Output,
    Internal,
    Array,
    Algorithm,
    State,
}

impl Known {
    /// What that is called.
    pub fn says(self) -> &'static str {
        match self {
            Known::EventInput => "an event input",
            Known::EventOutput => "an event output",
            Known::Input => "a data input",
            Known::Output => "a data output",
            Known::Internal => "a variable",
            Known::Array => "an array",
            Known::Algorithm => "an algorithm",
            Known::State => "a state",
        }
    }
}

// Whether one of some variables is an array of this name.
fn has_array(declared: &[VariableTree], name: &str) -> bool {
    for variables in declared {
        if variables.bounds.is_some() {
            for each in &variables.names {
                if each.text.as_str() == name {
                    return true;
                }
            }
        }
    }
    false
}

// What a name stands for in a chart.
fn known_in_chart(chart: &ChartTree, name: &str) -> Option<Known> {
    if has_array(&chart.internals, name) {
        return Some(Known::Array);
    }
    if type_named(&chart.internals, name).is_some() {
        return Some(Known::Internal);
    }
    for algorithm in &chart.algorithms {
        if algorithm.name.text.as_str() == name {
            return Some(Known::Algorithm);
        }
    }
    for state in &chart.states {
        if state.name.text.as_str() == name {
            return Some(Known::State);
        }
    }
    None
}

/// What a name stands for in a block type; of several the first of an event, a variable, an algorithm and a state.
pub fn known_in(block: &BlockTree, name: &str) -> Option<Known> {
    match port_in(block, name) {
        Some(Port::EventInput) => return Some(Known::EventInput),
        Some(Port::EventOutput) => return Some(Known::EventOutput),
        Some(Port::Input(_)) => return Some(Known::Input),
        Some(Port::Output(_)) => return Some(Known::Output),
        None => {}
    }
    match &block.body {
        BodyTree::Chart(chart) => known_in_chart(chart, name),
        BodyTree::Network(_) => None,
    }
}

/// The name of an array of a block type that a token is.
pub fn array_of<'t>(block: Option<&BlockTree>, token: Option<&'t Token>) -> Option<&'t str> {
    let name = name_of(token)?;
    match known_in(block?, name)? {
        Known::Array => Some(name),
        _ => None,
    }
}
