//! The states of a chart, with the actions of each and the transitions that leave it.

ghost use Rattle.std.specs.Prelude.{◌≡◌, ◌≤◌, length, true, string_bytes, IfOk, IfSome};
ghost use Rattle.std.specs.Option.{option_map};
ghost use Rattle.st_types.specs.Views.{term_of};
ghost use Rattle.st_exec.specs.CodeViews.{code_term};
ghost use Rattle.st_exec.specs.Placed.{placed};
ghost use Rattle.fb_types_blocks.specs.Views.{name_of, block_of};
ghost use Rattle.fb_chart.specs.Tables.{Each, IsAlgorithm};
ghost use Rattle.fb_device_tables.specs.Filling.{most_numbers, leaving_from, IsActionMade, IsStateMade, IsTransitionMade};

use crate::names::{number_in, optional, short};
use fb_chart::{Action, State, Transition};
use fb_types_blocks::Block;
use st_exec::{Code, Layout, coded_term};
use st_types::TypedExpr;
use std::alloc::{AllocError, Global};

// The number of an algorithm of a block, none where there is none of the name.
fn algorithm(block: &Block, name: &Option<String>) -> Option<u16>
    ensures { length block.now.procedures.entries ≤ most_numbers → IsAlgorithm (block_of block.now) (name_of name.now) result }
{
    match name {
        Some(name) => match block.procedures.get_index_of(name.as_str()) {
            Some(index) => Some(short(index)),
            None => None,
        },
        None => None,
    }
}

// An action by numbers.
fn action(block: &Block, source: &fb_types_blocks::Action) -> Action
    ensures { IsActionMade block.now source.now result }
{
    Action {
        algorithm: algorithm(block, &source.algorithm),
        output: optional(&block.face.event_outputs, &source.output),
    }
}

// Actions, in order.
fn actions(
    alloc: Global,
    block: &Block,
    sources: &[fb_types_blocks::Action],
) -> Result<Vec<Action>, AllocError>
    ensures { IfOk result (λ v. Each (IsActionMade block.now) sources.now v.items) }
{
    let mut actions = Vec::new(alloc);
    for source in sources {
        actions.push(action(block, source))?;
    }
    Ok(actions)
}

// A guard with slots, if there is one.
fn guard(
    alloc: Global,
    own: &Layout,
    source: &Option<TypedExpr>,
) -> Result<Option<Code>, AllocError>
    ensures same { IfOk result (λ g. option_map code_term g ≡ option_map term_of source.now) }
    ensures slots { IfOk result (λ g. IfSome g (λ c. placed own.now c ≡ true)) }
{
    match source {
        Some(source) => Ok(Some(coded_term(alloc, own, source)?)),
        None => Ok(None),
    }
}

// A transition by numbers, its guard with slots.
fn transition(
    alloc: Global,
    own: &Layout,
    block: &Block,
    source: &fb_types_blocks::Transition,
) -> Result<Transition, AllocError>
    ensures { IfOk result (λ x. IsTransitionMade own.now block.now source.now x) }
{
    let guard = guard(alloc, own, &source.guard)?;
    Ok(Transition {
        target: number_in(&block.states, source.target.as_str()),
        event: optional(&block.face.event_inputs, &source.event),
        guard,
    })
}

// The transitions that leave a state, in order.
fn leaving(
    alloc: Global,
    own: &Layout,
    block: &Block,
    name: &str,
    sources: &[fb_types_blocks::Transition],
) -> Result<Vec<Transition>, AllocError>
    ensures { IfOk result (λ v. Each (IsTransitionMade own.now block.now) (leaving_from name.now sources.now) v.items) }
{
    let mut transitions = Vec::new(alloc);
    for source in sources {
        if source.source.as_str() == name {
            transitions.push(transition(alloc, own, block, source)?)?;
        }
    }
    Ok(transitions)
}

// A state with its actions and the transitions that leave it.
fn state(
    alloc: Global,
    own: &Layout,
    block: &Block,
    name: &String,
    sources: &Vec<fb_types_blocks::Action>,
) -> Result<State, AllocError>
    ensures { IfOk result (λ x. IsStateMade own.now block.now (name.now, sources.now) x) }
{
    Ok(State {
        name: name.clone()?,
        actions: actions(alloc, block, sources)?,
        transitions: leaving(alloc, own, block, name.as_str(), &block.transitions)?,
    })
}

/// The states of a block, in order.
pub(crate) fn states(alloc: Global, own: &Layout, block: &Block) -> Result<Vec<State>, AllocError>
    ensures { IfOk result (λ v. Each (IsStateMade own.now block.now) block.now.states.entries v.items) }
{
    let mut states = Vec::new(alloc);
    for index in 0..block.states.len() {
        let Some((name, actions)) = block.states.get_index(index) else {
            return Ok(states);
        };
        states.push(state(alloc, own, block, name, actions)?)?;
    }
    Ok(states)
}
