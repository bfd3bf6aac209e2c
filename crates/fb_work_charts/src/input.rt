//! Event inputs of charts.

ghost use Rattle.std.specs.Prelude.{◌≡◌, ◌++◌, [], map, Some, OnOk};
ghost use Rattle.std.specs.List.{flat_map};
ghost use Rattle.fb_model.specs.Certificates.{event_names};
ghost use Rattle.fb_types_blocks.specs.Views.{block_of, events_of, states_of, transition_of};
ghost use Rattle.fb_find_laws.specs.Nodes.{capped};
ghost use Rattle.fb_find_demands.specs.Grounds.{table_names};
ghost use Rattle.fb_work_charts.specs.Charges.{crossing_work, crossings, event_work, input_works, most_trials, resting_work};
ghost use Rattle.fb_work_charts.specs.Reckoning.{all_capped, tariff_of};

use crate::chart::crossed_work;
use crate::output::carried_count;
use crate::scene::Scene;
use crate::trial::{is_open, trials_work};
use fb_prices::Primitive;
use fb_types_blocks::{Block, Transition};
use fb_work_statements::{added, times};
use std::alloc::AllocError;

// What a dispatch spends before a transition is tried.
fn event_work(scene: &Scene, block: &Block, event: &str) -> u64
    ensures { result ≡ capped (event_work (tariff_of (table_names block.now.procedures) scene.now) (block_of block.now) event.now) }
{
    let prices = scene.prices;
    let takes = carried_count(&block.face.event_inputs, event);
    let sampled = times(takes as u128, prices.price(Primitive::Sample));
    let taken = added(prices.price(Primitive::Dispatch), sampled);
    added(taken, prices.price(Primitive::Scan))
}

// What is spent in the state where most is when nothing is crossed.
fn most_trials(scene: &Scene, block: &Block, event: &str) -> u64
    ensures { result ≡ capped (most_trials (tariff_of (table_names block.now.procedures) scene.now) (block_of block.now) event.now (states_of block.now.states)) }
{
    let mut most = 0;
    for index in 0..block.states.len() {
        let Some((name, _)) = block.states.get_index(index) else {
            return most;
        };
        let tried = trials_work(scene.prices, &block.transitions, name.as_str(), Some(event));
        most = most.max(tried);
    }
    most
}

// A dispatch in which nothing is crossed.
fn resting_work(scene: &Scene, block: &Block, event: &str) -> u64
    ensures { result ≡ capped (resting_work (tariff_of (table_names block.now.procedures) scene.now) (block_of block.now) event.now) }
{
    added(
        event_work(scene, block, event),
        most_trials(scene, block, event),
    )
}

// A dispatch in which this transition is crossed, with those up to it.
fn crossing_work(
    scene: &Scene,
    block: &Block,
    event: &str,
    upto: &[Transition],
    transition: &Transition,
) -> u64
    ensures { result ≡ capped (crossing_work (tariff_of (table_names block.now.procedures) scene.now) (block_of block.now) event.now (map transition_of upto.now) (transition_of transition.now)) }
{
    let source = transition.source.as_str();
    let tried = trials_work(scene.prices, upto, source, Some(event));
    let begun = added(event_work(scene, block, event), tried);
    added(begun, crossed_work(scene.prices))
}

// Adds that of each transition which the event may cross.
fn add_crossings(
    scene: &Scene,
    block: &Block,
    event: &str,
    works: &mut Vec<u64>,
) -> Result<(), AllocError>
    ensures { OnOk result (works.new.items ≡ works.old.items ++ all_capped (crossings (tariff_of (table_names block.now.procedures) scene.now) (block_of block.now) event.now [] (map transition_of block.now.transitions.items))) }
{
    let transitions = block.transitions.as_slice();
    for index in 0..transitions.len() {
        let transition = &transitions[index];
        if is_open(transition, Some(event)) {
            let upto = &transitions[..index + 1];
            works.push(crossing_work(scene, block, event, upto, transition))?;
        }
    }
    Ok(())
}

// Adds the work that each demand of an event input asks for.
fn add_input(
    scene: &Scene,
    block: &Block,
    event: &str,
    works: &mut Vec<u64>,
) -> Result<(), AllocError>
    ensures { OnOk result (works.new.items ≡ works.old.items ++ all_capped (input_works (tariff_of (table_names block.now.procedures) scene.now) (block_of block.now) event.now)) }
{
    works.push(resting_work(scene, block, event))?;
    add_crossings(scene, block, event, works)
}

/// The same of all event inputs.
pub(crate) fn add_inputs(
    scene: &Scene,
    block: &Block,
    works: &mut Vec<u64>,
) -> Result<(), AllocError>
    ensures { OnOk result (works.new.items ≡ works.old.items ++ all_capped (flat_map (input_works (tariff_of (table_names block.now.procedures) scene.now) (block_of block.now)) (event_names (events_of block.now.face.event_inputs)))) }
{
    for index in 0..block.face.event_inputs.len() {
        let Some((event, _)) = block.face.event_inputs.get_index(index) else {
            return Ok(());
        };
        add_input(scene, block, event.as_str(), works)?;
    }
    Ok(())
}
