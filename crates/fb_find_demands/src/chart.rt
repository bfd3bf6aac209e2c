//! The demands of a chart.

ghost use Rattle.std.specs.Prelude.{◌≡◌, ◌++◌, map, string_bytes, IfOk, OnOk};
ghost use Rattle.std.specs.List.{flat_map};
ghost use Rattle.fb_model.specs.Demands.{free_demand, of_chart, of_free, of_state};
ghost use Rattle.fb_types_blocks.specs.Views.{action_of, block_of, states_of, transition_of};
ghost use Rattle.fb_find_laws.specs.Nodes.{by_number};
ghost use Rattle.fb_find_demands.specs.Crossed.{state_numbers};
ghost use Rattle.fb_find_demands.specs.Grounds.{actions_in, ground_in};
ghost use Rattle.fb_find_demands.specs.Rights.{numbered, numbers_of, right_of, rights_of};
ghost use Rattle.fb_find_demands.specs.Spending.{States, IsSpent};

use crate::crossings::add_inputs;
use crate::right::Right;
use crate::scene::{Scene, added, emitted, work};
use fb_types_blocks::{Action, Block, Transition};
use indexmap::IndexMap;
use std::alloc::AllocError;

// The charge of a state pays for its actions.
fn state_right(scene: &Scene, name: &str, actions: &[Action]) -> Result<Right, AllocError>
    ensures { IfOk result (λ r. right_of r ≡ by_number (numbers_of scene.now.numbering.now) (of_state (ground_in scene.now) (record { name = name.now; actions = map action_of actions.now }))) }
{
    Ok(Right {
        node: scene.numbering.state(scene.alloc, scene.path, name)?,
        constant: work(scene, actions),
        terms: emitted(scene, actions)?,
    })
}

// The same of each state; gives their numbers.
fn add_states(
    scene: &Scene,
    states: &IndexMap<String, Vec<Action>>,
    rights: &mut Vec<Right>,
) -> Result<Vec<usize>, AllocError>
    ensures added { OnOk result (rights_of rights.new.items ≡ rights_of rights.old.items ++ numbered scene.now.numbering.now (map (of_state (ground_in scene.now)) (states_of states.now))) }
    ensures numbers { IfOk result (λ v. v.items ≡ state_numbers (numbers_of scene.now.numbering.now) (ground_in scene.now) (states_of states.now)) }
{
    let mut numbers = Vec::new(scene.alloc);
    for index in 0..states.len() {
        let Some((name, actions)) = states.get_index(index) else {
            return Ok(numbers);
        };
        let right = state_right(scene, name.as_str(), actions.as_slice())?;
        numbers.push(right.node)?;
        rights.push(right)?;
    }
    Ok(numbers)
}

// The actions of the state of a name.
fn actions_in<'a>(states: &'a IndexMap<String, Vec<Action>>, name: &str) -> &'a [Action]
    ensures { map action_of result.now ≡ actions_in states.now.entries name.now }
{
    match states.get(name) {
        Some(actions) => actions.as_slice(),
        None => &[],
    }
}

/// What the state of a name runs, as far as numbers are told apart, and the numbers of all that it emits.
#[derive(Drop)]
pub(crate) struct Spent {
    pub(crate) state: String,
    pub(crate) work: u64,
    pub(crate) terms: Vec<usize>,
}

// What the state of a name runs and emits.
fn spending(
    scene: &Scene,
    states: &IndexMap<String, Vec<Action>>,
    state: &str,
) -> Result<Spent, AllocError>
    ensures name { IfOk result (λ s. string_bytes s.state ≡ state.now) }
    ensures spent { IfOk result (IsSpent scene.now states.now.entries) }
{
    let actions = actions_in(states, state);
    Ok(Spent {
        state: String::from_str(scene.alloc, state)?,
        work: work(scene, actions),
        terms: emitted(scene, actions)?,
    })
}

// The same, unless it is known already.
fn reckon(
    scene: &Scene,
    states: &IndexMap<String, Vec<Action>>,
    state: &str,
    last: &mut Spent,
) -> Result<(), AllocError>
    requires { IsSpent scene.now states.now.entries last.old }
    ensures name { OnOk result (string_bytes last.new.state ≡ state.now) }
    ensures spent { OnOk result (IsSpent scene.now states.now.entries last.new) }
{
    if last.state.as_str() != state {
        *last = spending(scene, states, state)?;
    }
    Ok(())
}

// And for a transition without an event that leaves it, with the charge of the state that this leads to.
fn free_right(scene: &Scene, spent: &Spent, target: &str) -> Result<Right, AllocError>
    ensures { (states : States) → IsSpent scene.now states spent.now → IfOk result (λ r. right_of r ≡ by_number (numbers_of scene.now.numbering.now) (free_demand (ground_in scene.now) (actions_in states (string_bytes spent.now.state)) (string_bytes spent.now.state) target.now)) }
{
    let mut terms = spent.terms.clone()?;
    terms.push(scene.numbering.state(scene.alloc, scene.path, target)?)?;
    Ok(Right {
        node: scene
            .numbering
            .state(scene.alloc, scene.path, spent.state.as_str())?,
        constant: added(spent.work, scene.unit),
        terms,
    })
}

// The same of a transition, where it names no event; what its state runs and emits is reckoned once for all transitions in a row that leave it.
fn add_free(
    scene: &Scene,
    block: &Block,
    transition: &Transition,
    last: &mut Spent,
    rights: &mut Vec<Right>,
) -> Result<(), AllocError>
    requires { IsSpent scene.now block.now.states.entries last.old }
    ensures added { OnOk result (rights_of rights.new.items ≡ rights_of rights.old.items ++ numbered scene.now.numbering.now (of_free (ground_in scene.now) (block_of block.now) (transition_of transition.now))) }
    ensures spent { OnOk result (IsSpent scene.now block.now.states.entries last.new) }
{
    match &transition.event {
        None => {
            let source = transition.source.as_str();
            reckon(scene, &block.states, source, last)?;
            rights.push(free_right(scene, last, transition.target.as_str())?)?;
            Ok(())
        }
        Some(_) => Ok(()),
    }
}

// The same of each transition.
fn add_frees(
    scene: &Scene,
    block: &Block,
    transitions: &[Transition],
    rights: &mut Vec<Right>,
) -> Result<(), AllocError>
    ensures { OnOk result (rights_of rights.new.items ≡ rights_of rights.old.items ++ numbered scene.now.numbering.now (flat_map (of_free (ground_in scene.now) (block_of block.now)) (map transition_of transitions.now))) }
{
    let mut last = spending(scene, &block.states, "")?;
    for transition in transitions {
        add_free(scene, block, transition, &mut last, rights)?;
    }
    Ok(())
}

/// Adds the demands of a basic block.
pub(crate) fn add_chart(
    scene: &Scene,
    block: &Block,
    rights: &mut Vec<Right>,
) -> Result<(), AllocError>
    ensures { OnOk result (rights_of rights.new.items ≡ rights_of rights.old.items ++ numbered scene.now.numbering.now (of_chart (ground_in scene.now) (block_of block.now))) }
{
    let numbers = add_states(scene, &block.states, rights)?;
    add_frees(scene, block, block.transitions.as_slice(), rights)?;
    let inputs = &block.face.event_inputs;
    add_inputs(scene, inputs, block, numbers.as_slice(), rights)
}
