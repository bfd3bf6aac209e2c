//! States, transitions and algorithms.

ghost use Rattle.std.specs.Prelude.{◌≡◌, map, true, IfOk, IfErr, OnOk};
ghost use Rattle.fb_model.specs.Names.{is_in};
ghost use Rattle.std.specs.List.{AllByRecursion};
ghost use Rattle.std.specs.Option.{option_map};
ghost use Rattle.fb_model.specs.BlockTyping.{IsActionTyped, IsGuard, IsTransition, AreTransitions, AreProcedures, algorithm_texts};
ghost use Rattle.fb_model.specs.Typing.{AreDistinct, IsKnown, typed_action, typed_state, state_texts};
ghost use Rattle.fb_tree.specs.Words as read;
ghost use Rattle.fb_tree.specs.Files as tree;
ghost use Rattle.st_types.specs.Views.{entries, term_of};
ghost use Rattle.fb_types_blocks.specs.Answers.{names_in_map, IsChart};
ghost use Rattle.fb_types_blocks.specs.Views.{action_of, states_of, transition_of, procedures_of};
ghost use Rattle.fb_model.specs.BlockFaults.{IsActionFault, IsStateFault, IsGuardFault, IsEndsFault, IsTransitionFault, IsAlgorithmFault, IsChartFault, Among};

use crate::names::{add, known, known_if_some, optional};
use crate::typed::{Action, ControlChart, Events, Face, Transition};
use fb_faults::TypeFault;
use fb_tree::{ActionTree, AlgorithmTree, ChartTree, GuardTree, StateTree, TransitionTree};
use indexmap::IndexMap;
use st_types::{Algo, Scope, TypedExpr, resolve_algorithm, resolve_condition};
use std::alloc::Global;

// An action runs an algorithm of the block and emits an output of it.
fn action(
    algorithms: &IndexMap<String, Algo>,
    outputs: &Events,
    source: &ActionTree,
) -> Result<Action, TypeFault>
    ensures typed { OnOk result (IsActionTyped (names_in_map algorithms.now) (names_in_map outputs.now) (tree.action_of source.now)) }
    ensures value { IfOk result (λ a. action_of a ≡ typed_action (tree.action_of source.now)) }
    ensures refused { IfErr result (IsActionFault (names_in_map algorithms.now) (names_in_map outputs.now) (tree.action_of source.now)) }
{
    known_if_some(algorithms, &source.algorithm)?;
    known_if_some(outputs, &source.output)?;
    Ok(Action {
        algorithm: optional(&source.algorithm)?,
        output: optional(&source.output)?,
    })
}

// The actions of a state, in order.
fn actions(
    alloc: Global,
    algorithms: &IndexMap<String, Algo>,
    outputs: &Events,
    sources: &[ActionTree],
) -> Result<Vec<Action>, TypeFault>
    ensures typed { OnOk result (AllByRecursion (IsActionTyped (names_in_map algorithms.now) (names_in_map outputs.now)) (map tree.action_of sources.now)) }
    ensures value { IfOk result (λ v. map action_of v.items ≡ map typed_action (map tree.action_of sources.now)) }
    ensures refused { IfErr result (Among (IsActionFault (names_in_map algorithms.now) (names_in_map outputs.now)) (map tree.action_of sources.now)) }
{
    let mut actions = Vec::new(alloc);
    for source in sources {
        actions.push(action(algorithms, outputs, source)?)?;
    }
    Ok(actions)
}

// States of different names, with their actions.
fn states(
    alloc: Global,
    algorithms: &IndexMap<String, Algo>,
    outputs: &Events,
    sources: &[StateTree],
) -> Result<IndexMap<String, Vec<Action>>, TypeFault>
    requires { AreDistinct (state_texts (map tree.state_of sources.now)) }
    ensures typed { OnOk result (AllByRecursion (λ s. AllByRecursion (IsActionTyped (names_in_map algorithms.now) (names_in_map outputs.now)) s.actions) (map tree.state_of sources.now)) }
    ensures value { IfOk result (λ m. states_of m ≡ map typed_state (map tree.state_of sources.now)) }
    ensures refused { IfErr result (Among (IsStateFault (names_in_map algorithms.now) (names_in_map outputs.now)) (map tree.state_of sources.now)) }
{
    let mut states = IndexMap::new(alloc);
    for source in sources {
        let actions = actions(alloc, algorithms, outputs, &source.actions)?;
        add(&mut states, &source.name.text, actions)?;
    }
    Ok(states)
}

// A guard is a condition.
fn guard(
    alloc: Global,
    scope: &Scope,
    source: &Option<GuardTree>,
) -> Result<Option<TypedExpr>, TypeFault>
    ensures found { IfOk result (λ x. IsGuard (entries scope.now) (read.optional tree.guard_of source.now) (option_map term_of x)) }
    ensures refused { IfErr result (IsGuardFault (entries scope.now) (read.optional tree.guard_of source.now)) }
{
    match source {
        Some(source) => {
            let guard = resolve_condition(alloc, scope, source.at, &source.condition)?;
            Ok(Some(guard))
        }
        None => Ok(None),
    }
}

// The names of a transition are states of the block, and an event input or none.
fn known_ends(
    states: &IndexMap<String, Vec<Action>>,
    inputs: &Events,
    source: &TransitionTree,
) -> Result<(), TypeFault>
    ensures source { OnOk result (is_in (tree.transition_of source.now).source.text (names_in_map states.now) ≡ true) }
    ensures target { OnOk result (is_in (tree.transition_of source.now).target.text (names_in_map states.now) ≡ true) }
    ensures event { OnOk result (IsKnown (names_in_map inputs.now) (tree.transition_of source.now).event) }
    ensures refused { IfErr result (IsEndsFault (names_in_map states.now) (names_in_map inputs.now) (tree.transition_of source.now)) }
{
    known(states, &source.source)?;
    known(states, &source.target)?;
    known_if_some(inputs, &source.event)
}

fn transition(
    alloc: Global,
    scope: &Scope,
    states: &IndexMap<String, Vec<Action>>,
    inputs: &Events,
    source: &TransitionTree,
) -> Result<Transition, TypeFault>
    ensures found { IfOk result (λ t. IsTransition (entries scope.now) (names_in_map states.now) (names_in_map inputs.now) (tree.transition_of source.now) (transition_of t)) }
    ensures refused { IfErr result (IsTransitionFault (entries scope.now) (names_in_map states.now) (names_in_map inputs.now) (tree.transition_of source.now)) }
{
    known_ends(states, inputs, source)?;
    let guard = guard(alloc, scope, &source.guard)?;
    Ok(Transition {
        source: source.source.text.clone()?,
        target: source.target.text.clone()?,
        event: optional(&source.event)?,
        guard,
    })
}

// The transitions of a block, in order.
fn transitions(
    alloc: Global,
    scope: &Scope,
    states: &IndexMap<String, Vec<Action>>,
    inputs: &Events,
    sources: &[TransitionTree],
) -> Result<Vec<Transition>, TypeFault>
    ensures found { IfOk result (λ v. AreTransitions (entries scope.now) (names_in_map states.now) (names_in_map inputs.now) (map tree.transition_of sources.now) (map transition_of v.items)) }
    ensures refused { IfErr result (Among (IsTransitionFault (entries scope.now) (names_in_map states.now) (names_in_map inputs.now)) (map tree.transition_of sources.now)) }
{
    let mut transitions = Vec::new(alloc);
    for source in sources {
        transitions.push(transition(alloc, scope, states, inputs, source)?)?;
    }
    Ok(transitions)
}

// Algorithms of different names.
fn procedures(
    alloc: Global,
    scope: &Scope,
    sources: &[AlgorithmTree],
) -> Result<IndexMap<String, Algo>, TypeFault>
    requires { AreDistinct (algorithm_texts (map tree.algorithm_of sources.now)) }
    ensures found { IfOk result (λ m. AreProcedures (entries scope.now) (map tree.algorithm_of sources.now) (procedures_of m)) }
    ensures refused { IfErr result (Among (IsAlgorithmFault (entries scope.now)) (map tree.algorithm_of sources.now)) }
{
    let mut procedures = IndexMap::new(alloc);
    for source in sources {
        let algorithm = resolve_algorithm(alloc, scope, &source.body)?;
        add(&mut procedures, &source.name.text, algorithm)?;
    }
    Ok(procedures)
}

/// The chart of a block with this interface, whose states and whose algorithms have different names.
pub(crate) fn control_chart(
    alloc: Global,
    scope: &Scope,
    face: &Face,
    source: &ChartTree,
) -> Result<ControlChart, TypeFault>
    requires states { AreDistinct (state_texts (tree.chart_of source.now).states) }
    requires algorithms { AreDistinct (algorithm_texts (tree.chart_of source.now).algorithms) }
    ensures found { IfOk result (λ k. IsChart (entries scope.now) (names_in_map face.now.event_inputs) (names_in_map face.now.event_outputs) (tree.chart_of source.now) (states_of k.states) (map transition_of k.transitions.items) (procedures_of k.procedures)) }
    ensures refused { IfErr result (IsChartFault (entries scope.now) (names_in_map face.now.event_inputs) (names_in_map face.now.event_outputs) (tree.chart_of source.now)) }
{
    let procedures = procedures(alloc, scope, &source.algorithms)?;
    let states = states(alloc, &procedures, &face.event_outputs, &source.states)?;
    let inputs = &face.event_inputs;
    let transitions = transitions(alloc, scope, &states, inputs, &source.transitions)?;
    Ok(ControlChart {
        states,
        transitions,
        procedures,
    })
}
