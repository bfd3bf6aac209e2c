//! Actions of states.

ghost use Rattle.std.specs.Prelude.{◌≡◌, map};
ghost use Rattle.fb_model.specs.Charts.{actions_of, emission};
ghost use Rattle.fb_model.specs.Wires.{Charted};
ghost use Rattle.fb_types_blocks.specs.Views.{action_of, block_of, states_of};
ghost use Rattle.fb_find_laws.specs.Nodes.{capped};
ghost use Rattle.fb_find_demands.specs.Grounds.{table_names};
ghost use Rattle.fb_model_work.specs.Spending.{in_outputs};
ghost use Rattle.fb_work_charts.specs.Charges.{action_work, actions_work};
ghost use Rattle.fb_work_charts.specs.Reckoning.{tariff_of};

use crate::output::{carried_count, issue_work, target_count};
use crate::scene::Scene;
use fb_prices::Primitive;
use fb_types_blocks::{Action, Block};
use fb_work_statements::added;

// What the algorithm of an action costs with its call, if it runs one.
fn algorithm_work(scene: &Scene, block: &Block, action: &Action) -> u64
    ensures { result ≡ (tariff_of (table_names block.now.procedures) scene.now).algorithm (action_of action.now).algorithm }
{
    match &action.algorithm {
        Some(name) => match block.procedures.get_index_of(name.as_str()) {
            Some(index) => match scene.algorithms.get(index) {
                Some(work) => *work,
                None => 0,
            },
            None => 0,
        },
        None => 0,
    }
}

// What the output of an action costs, if it emits one.
fn output_work(scene: &Scene, block: &Block, action: &Action) -> u64
    ensures { result ≡ capped (in_outputs (tariff_of (table_names block.now.procedures) scene.now).prices (Charted (block_of block.now)) (tariff_of (table_names block.now.procedures) scene.now).targets (emission (action_of action.now).output)) }
{
    match &action.output {
        Some(output) => {
            let gives = carried_count(&block.face.event_outputs, output.as_str());
            let targets = target_count(scene.outputs, output.as_str());
            issue_work(scene.prices, gives, targets)
        }
        None => 0,
    }
}

// An action.
fn action_work(scene: &Scene, block: &Block, action: &Action) -> u64
    ensures { result ≡ capped (action_work (tariff_of (table_names block.now.procedures) scene.now) (block_of block.now) (action_of action.now)) }
{
    let both = added(
        algorithm_work(scene, block, action),
        output_work(scene, block, action),
    );
    added(scene.prices.price(Primitive::Act), both)
}

/// These actions.
pub(crate) fn actions_work(scene: &Scene, block: &Block, actions: &[Action]) -> u64
    ensures { result ≡ capped (actions_work (tariff_of (table_names block.now.procedures) scene.now) (block_of block.now) (map action_of actions.now)) }
{
    let mut sum = 0;
    for action in actions {
        sum = added(sum, action_work(scene, block, action));
    }
    sum
}

/// Those of the state of a name, none where there is no such state.
pub(crate) fn state_actions_work(scene: &Scene, block: &Block, state: &str) -> u64
    ensures { result ≡ capped (actions_work (tariff_of (table_names block.now.procedures) scene.now) (block_of block.now) (actions_of (states_of block.now.states) state.now)) }
{
    match block.states.get(state) {
        Some(actions) => actions_work(scene, block, actions.as_slice()),
        None => 0,
    }
}
