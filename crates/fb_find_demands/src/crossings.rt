//! The demands of event inputs.

ghost use Rattle.std.specs.Prelude.{◌≡◌, ◌++◌, map, IfOk, OnOk};
ghost use Rattle.std.specs.List.{flat_map};
ghost use Rattle.std.specs.Option.{option_map};
ghost use Rattle.fb_model.specs.Certificates.{event_names};
ghost use Rattle.fb_model.specs.Demands.{of_input, of_least, state};
ghost use Rattle.fb_types_blocks.specs.Views.{block_of, events_of, states_of, transition_of};
ghost use Rattle.fb_find_laws.specs.Nodes.{by_number, index_in};
ghost use Rattle.fb_find_demands.specs.Crossed.{crossed, crossing_at, crossing_of, input_rights, is_crossed, state_numbers};
ghost use Rattle.fb_find_demands.specs.Grounds.{ground_in};
ghost use Rattle.fb_find_demands.specs.Rights.{numbered, numbers_of, right_of, rights_of};

use crate::right::Right;
use crate::scene::{Scene, added};
use fb_types_blocks::{Action, Block, Events, Transition};
use indexmap::IndexMap;
use std::alloc::AllocError;

/// A transition by numbers: the place of its event, if it names one, among the event inputs, behind their end where it is none of them, and the number of the
/// state that it leads to.
#[derive(Clone, Copy)]
pub(crate) struct Crossing {
    pub(crate) event: Option<usize>,
    pub(crate) target: usize,
}

// The place of a name among event inputs; behind their end where it is none of them.
fn place(inputs: &Events, name: &str) -> usize
    ensures { result ≡ index_in (event_names (events_of inputs.now)) name.now }
{
    let count = inputs.len();
    match inputs.get_index_of(name) {
        Some(index) => index,
        None => count,
    }
}

// The place of a transition's event, if it names one.
fn event_place(inputs: &Events, transition: &Transition) -> Option<usize>
    ensures { result ≡ option_map (index_in (event_names (events_of inputs.now))) (transition_of transition.now).event }
{
    match &transition.event {
        Some(name) => Some(place(inputs, name.as_str())),
        None => None,
    }
}

// The number of the state of a name, by its place where it stands among the states, which have these numbers.
fn state_number(
    scene: &Scene,
    states: &IndexMap<String, Vec<Action>>,
    numbers: &[usize],
    name: &str,
) -> Result<usize, AllocError>
    requires { numbers.now ≡ state_numbers (numbers_of scene.now.numbering.now) (ground_in scene.now) (states_of states.now) }
    ensures { IfOk result (λ k. k ≡ numbers_of scene.now.numbering.now (state ((ground_in scene.now).own name.now))) }
{
    match states.get_index_of(name) {
        Some(index) => match numbers.get(index) {
            Some(number) => Ok(*number),
            None => scene.numbering.state(scene.alloc, scene.path, name),
        },
        None => scene.numbering.state(scene.alloc, scene.path, name),
    }
}

// A transition by numbers.
fn one_crossing(
    scene: &Scene,
    inputs: &Events,
    states: &IndexMap<String, Vec<Action>>,
    numbers: &[usize],
    transition: &Transition,
) -> Result<Crossing, AllocError>
    requires { numbers.now ≡ state_numbers (numbers_of scene.now.numbering.now) (ground_in scene.now) (states_of states.now) }
    ensures { IfOk result (λ c. c ≡ crossing_of (numbers_of scene.now.numbering.now) (ground_in scene.now) (event_names (events_of inputs.now)) (transition_of transition.now)) }
{
    let target = transition.target.as_str();
    Ok(Crossing {
        event: event_place(inputs, transition),
        target: state_number(scene, states, numbers, target)?,
    })
}

// The same of each transition.
fn all_crossings(
    scene: &Scene,
    inputs: &Events,
    states: &IndexMap<String, Vec<Action>>,
    numbers: &[usize],
    transitions: &[Transition],
) -> Result<Vec<Crossing>, AllocError>
    requires { numbers.now ≡ state_numbers (numbers_of scene.now.numbering.now) (ground_in scene.now) (states_of states.now) }
    ensures { IfOk result (λ v. v.items ≡ map (λ t. crossing_of (numbers_of scene.now.numbering.now) (ground_in scene.now) (event_names (events_of inputs.now)) (transition_of t)) transitions.now) }
{
    let mut crossings = Vec::new(scene.alloc);
    for transition in transitions {
        crossings.push(one_crossing(scene, inputs, states, numbers, transition)?)?;
    }
    Ok(crossings)
}

/// A weight is at least 1.
pub(crate) fn least_right(scene: &Scene, event: &str) -> Result<Right, AllocError>
    ensures { IfOk result (λ r. right_of r ≡ by_number (numbers_of scene.now.numbering.now) (of_least (ground_in scene.now) event.now)) }
{
    Ok(Right {
        node: scene.numbering.event(scene.alloc, scene.path, event)?,
        constant: 1,
        terms: Vec::new(scene.alloc),
    })
}

// The weight of the event input with this number pays for its dispatch and a crossing, with the charge of the state that this leads to.
fn crossing_right(scene: &Scene, node: usize, target: usize) -> Result<Right, AllocError>
    ensures { IfOk result (λ r. right_of r ≡ crossing_at node scene.now.unit target) }
{
    let mut terms = Vec::new(scene.alloc);
    terms.push(target)?;
    Ok(Right {
        node,
        constant: added(scene.unit, scene.unit),
        terms,
    })
}

// Whether a transition may be crossed while the event at this place waits: it names it, or none.
fn is_open(crossing: &Crossing, place: usize) -> bool
    ensures { result ≡ is_crossed crossing.now.event place }
{
    match crossing.event {
        Some(named) => named == place,
        None => true,
    }
}

// The same of a transition, where it may be crossed then.
fn add_crossing(
    scene: &Scene,
    node: usize,
    place: usize,
    crossing: &Crossing,
    rights: &mut Vec<Right>,
) -> Result<(), AllocError>
    ensures { OnOk result (rights_of rights.new.items ≡ rights_of rights.old.items ++ crossed node scene.now.unit place crossing.now) }
{
    if is_open(crossing, place) {
        rights.push(crossing_right(scene, node, crossing.target)?)?;
    }
    Ok(())
}

// The same of each transition.
fn add_crossings(
    scene: &Scene,
    node: usize,
    place: usize,
    crossings: &[Crossing],
    rights: &mut Vec<Right>,
) -> Result<(), AllocError>
    ensures { OnOk result (rights_of rights.new.items ≡ rights_of rights.old.items ++ flat_map (crossed node scene.now.unit place) crossings.now) }
{
    for crossing in crossings {
        add_crossing(scene, node, place, crossing, rights)?;
    }
    Ok(())
}

// The demands of an event input, with the transitions by numbers.
fn add_input(
    scene: &Scene,
    inputs: &Events,
    crossings: &[Crossing],
    event: &str,
    rights: &mut Vec<Right>,
) -> Result<(), AllocError>
    ensures { OnOk result (rights_of rights.new.items ≡ rights_of rights.old.items ++ input_rights (numbers_of scene.now.numbering.now) (ground_in scene.now) (event_names (events_of inputs.now)) event.now crossings.now) }
{
    let least = least_right(scene, event)?;
    let node = least.node;
    rights.push(least)?;
    add_crossings(scene, node, place(inputs, event), crossings, rights)
}

/// Adds the demands of each event input of a block whose states have these numbers; its transitions are found by the places of their events.
pub(crate) fn add_inputs(
    scene: &Scene,
    inputs: &Events,
    block: &Block,
    numbers: &[usize],
    rights: &mut Vec<Right>,
) -> Result<(), AllocError>
    requires { numbers.now ≡ state_numbers (numbers_of scene.now.numbering.now) (ground_in scene.now) (states_of block.now.states) }
    ensures { OnOk result (rights_of rights.new.items ≡ rights_of rights.old.items ++ numbered scene.now.numbering.now (flat_map (of_input (ground_in scene.now) (block_of block.now)) (event_names (events_of inputs.now)))) }
{
    let transitions = block.transitions.as_slice();
    let crossings = all_crossings(scene, inputs, &block.states, numbers, transitions)?;
    for index in 0..inputs.len() {
        let Some((event, _)) = inputs.get_index(index) else {
            return Ok(());
        };
        add_input(scene, inputs, crossings.as_slice(), event.as_str(), rights)?;
    }
    Ok(())
}
