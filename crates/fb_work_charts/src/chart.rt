//! States, and transitions without an event.

ghost use Rattle.std.specs.Prelude.{◌≡◌, ◌++◌, [], map, OnOk};
ghost use Rattle.fb_types_blocks.specs.Views.{block_of, states_of, transition_of};
ghost use Rattle.fb_find_laws.specs.Nodes.{capped};
ghost use Rattle.fb_find_demands.specs.Grounds.{table_names};
ghost use Rattle.fb_prices.specs.Words.{prices_of};
ghost use Rattle.fb_model_work.specs.Work.{of_crossing};
ghost use Rattle.fb_work_charts.specs.Charges.{chart_works, free_work, frees, state_work};
ghost use Rattle.fb_work_charts.specs.Reckoning.{all_capped, tariff_of};

use crate::action::{actions_work, state_actions_work};
use crate::input::add_inputs;
use crate::scene::Scene;
use crate::trial::trials_work;
use fb_prices::{Prices, Primitive};
use fb_types_blocks::{Block, Transition};
use fb_work_statements::added;
use std::alloc::AllocError;

/// A transition is crossed, and those of the state that it leads to are looked through.
pub(crate) fn crossed_work(prices: &Prices) -> u64
    ensures { result ≡ capped (of_crossing (prices_of prices.now)) }
{
    added(
        prices.price(Primitive::Cross),
        prices.price(Primitive::Scan),
    )
}

// Adds the work of each state.
fn add_states(scene: &Scene, block: &Block, works: &mut Vec<u64>) -> Result<(), AllocError>
    ensures { OnOk result (works.new.items ≡ works.old.items ++ all_capped (map (state_work (tariff_of (table_names block.now.procedures) scene.now) (block_of block.now)) (states_of block.now.states))) }
{
    for index in 0..block.states.len() {
        let Some((name, actions)) = block.states.get_index(index) else {
            return Ok(());
        };
        let tried = trials_work(scene.prices, &block.transitions, name.as_str(), None);
        let own = actions_work(scene, block, actions.as_slice());
        works.push(added(own, tried))?;
    }
    Ok(())
}

// The work of a transition without an event, with those up to it.
fn free_work(scene: &Scene, block: &Block, upto: &[Transition], transition: &Transition) -> u64
    ensures { result ≡ capped (free_work (tariff_of (table_names block.now.procedures) scene.now) (block_of block.now) (map transition_of upto.now) (transition_of transition.now)) }
{
    let source = transition.source.as_str();
    let own = state_actions_work(scene, block, source);
    let tried = trials_work(scene.prices, upto, source, None);
    added(added(own, tried), crossed_work(scene.prices))
}

// Adds that of each.
fn add_frees(scene: &Scene, block: &Block, works: &mut Vec<u64>) -> Result<(), AllocError>
    ensures { OnOk result (works.new.items ≡ works.old.items ++ all_capped (frees (tariff_of (table_names block.now.procedures) scene.now) (block_of block.now) [] (map transition_of block.now.transitions.items))) }
{
    let transitions = block.transitions.as_slice();
    for index in 0..transitions.len() {
        let transition = &transitions[index];
        if transition.event.is_none() {
            works.push(free_work(scene, block, &transitions[..index + 1], transition))?;
        }
    }
    Ok(())
}

/// Adds the work that each demand of a chart asks for.
pub(crate) fn add_chart(
    scene: &Scene,
    block: &Block,
    works: &mut Vec<u64>,
) -> Result<(), AllocError>
    ensures { OnOk result (works.new.items ≡ works.old.items ++ all_capped (chart_works (tariff_of (table_names block.now.procedures) scene.now) (block_of block.now))) }
{
    add_states(scene, block, works)?;
    add_frees(scene, block, works)?;
    add_inputs(scene, block, works)
}
