//! Basic block types that are the same.

ghost use Rattle.std.specs.Prelude.{◌≡◌, true, map};
ghost use Rattle.fb_types_blocks.specs.Views.{name_of, action_of, transition_of, states_of, procedures_of, block_of};

use crate::algorithm::same_algorithm;
use crate::face::{same_face, same_variables};
use crate::term::same_guard;
use fb_types_blocks::{Action, Block, Transition};
use indexmap::IndexMap;
use st_types::Algo;

// Whether two names that may be left out are the same.
fn same_name(one: &Option<String>, other: &Option<String>) -> bool
    ensures { result ≡ true → name_of one.now ≡ name_of other.now }
{
    match (one, other) {
        (Some(one), Some(other)) => one == other,
        (None, None) => true,
        _ => false,
    }
}

// Whether two actions are the same.
fn same_action(one: &Action, other: &Action) -> bool
    ensures { result ≡ true → action_of one.now ≡ action_of other.now }
{
    same_name(&one.algorithm, &other.algorithm) && same_name(&one.output, &other.output)
}

// Whether two lists of actions are the same.
fn same_actions(one: &[Action], other: &[Action]) -> bool
    ensures { result ≡ true → map action_of one.now ≡ map action_of other.now }
{
    if one.len() != other.len() {
        return false;
    }
    for at in 0..one.len() {
        if !same_action(&one[at], &other[at]) {
            return false;
        }
    }
    true
}

// Whether two charts have the same states.
fn same_states(one: &IndexMap<String, Vec<Action>>, other: &IndexMap<String, Vec<Action>>) -> bool
    ensures { result ≡ true → states_of one.now ≡ states_of other.now }
{
    if one.len() != other.len() {
        return false;
    }
    for at in 0..one.len() {
        let (Some((name, actions)), Some((next, like))) = (one.get_index(at), other.get_index(at))
        else {
            return false;
        };
        if name != next {
            return false;
        }
        if !same_actions(actions, like) {
            return false;
        }
    }
    true
}

// Whether two transitions are the same.
fn same_transition(one: &Transition, other: &Transition) -> bool
    ensures { result ≡ true → transition_of one.now ≡ transition_of other.now }
{
    one.source == other.source
        && one.target == other.target
        && same_name(&one.event, &other.event)
        && same_guard(&one.guard, &other.guard)
}

// Whether two lists of transitions are the same.
fn same_transitions(one: &[Transition], other: &[Transition]) -> bool
    ensures { result ≡ true → map transition_of one.now ≡ map transition_of other.now }
{
    if one.len() != other.len() {
        return false;
    }
    for at in 0..one.len() {
        if !same_transition(&one[at], &other[at]) {
            return false;
        }
    }
    true
}

// Whether two blocks have the same algorithms.
fn same_procedures(one: &IndexMap<String, Algo>, other: &IndexMap<String, Algo>) -> bool
    ensures { result ≡ true → procedures_of one.now ≡ procedures_of other.now }
{
    if one.len() != other.len() {
        return false;
    }
    for at in 0..one.len() {
        let (Some((name, algorithm)), Some((next, like))) = (one.get_index(at), other.get_index(at))
        else {
            return false;
        };
        if name != next {
            return false;
        }
        if !same_algorithm(algorithm, like) {
            return false;
        }
    }
    true
}

/// Whether two basic block types are the same: interfaces, variables, states, transitions and algorithms, in order. IEC 61499-1 edition 2, 5.2.
///
/// It looks at each of their parts once, and is written to take no memory, which no clause says.
pub fn is_alike(one: &Block, other: &Block) -> bool
    ensures { result ≡ true → block_of one.now ≡ block_of other.now }
{
    same_face(&one.face, &other.face)
        && same_variables(&one.internals, &other.internals)
        && same_states(&one.states, &other.states)
        && same_transitions(&one.transitions, &other.transitions)
        && same_procedures(&one.procedures, &other.procedures)
}
