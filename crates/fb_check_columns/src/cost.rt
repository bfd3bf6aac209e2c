//! What the parts of a block's actions cost in a column.

ghost use Rattle.std.specs.Prelude.{◌≡◌, ℕ, List, map, IfOk, IfErr, OnOk};
ghost use Rattle.std.specs.List.{AllByRecursion};
ghost use Rattle.fb_model.specs.System as system;
ghost use Rattle.fb_model.specs.Ranges.{IsClearAlgorithm};
ghost use Rattle.fb_model.specs.Clear.{cost};
ghost use Rattle.st_types.specs.CommandViews.{commands_of};
ghost use Rattle.fb_ranges.specs.Views.{spans_of};
ghost use Rattle.fb_types_blocks.specs.Views.{procedures_of};
ghost use Rattle.fb_check_columns.specs.Paying.{IsMemory};
ghost use Rattle.fb_check_columns.specs.Reckoning.{Costs, AreSums, ArePrices, worked, emitted, acted, value_at, table_names};
ghost use Rattle.fb_check_columns.specs.Sums.{IsSum};

use crate::column::plus;
use fb_faults::Shortfall;
use fb_ranges::{Ranges, copied, max_steps};
use fb_types_blocks::{Action, Block};
use indexmap::IndexMap;
use st_types::Algo;
use std::alloc::Global;

/// What the algorithms of a block cost, and its event outputs, in their orders.
#[derive(Drop)]
pub(crate) struct Prices {
    pub(crate) algorithms: Vec<Option<u64>>,
    pub(crate) outputs: Vec<Option<u64>>,
}

// The steps that an algorithm costs at most, by an examination in a copy of the rows.
fn cost(
    alloc: Global,
    algorithm: &Algo,
    rows: &Ranges,
    work: &mut Ranges,
    asked: &mut Ranges,
) -> Result<Option<u64>, Shortfall>
    requires { spans_of work.old ≡ spans_of rows.now }
    ensures value { IsClearAlgorithm (spans_of rows.now) (commands_of algorithm.now.statements.items) → IfOk result (λ s. IsSum s (cost (spans_of rows.now) (commands_of algorithm.now.statements.items))) }
    ensures refused { IfErr result IsMemory }
    ensures rest { OnOk result (spans_of work.new ≡ spans_of rows.now) }
{
    Ok(max_steps(alloc, algorithm, rows, work, asked)?)
}

/// The same of each algorithm, in their order.
pub(crate) fn costs(
    alloc: Global,
    procedures: &IndexMap<String, Algo>,
    rows: &Ranges,
) -> Result<Vec<Option<u64>>, Shortfall>
    ensures values { AllByRecursion (λ (p : system.Procedure). IsClearAlgorithm (spans_of rows.now) p.algorithm) (procedures_of procedures.now) → IfOk result (λ v. AreSums v.items (map (λ (p : system.Procedure). cost (spans_of rows.now) p.algorithm) (procedures_of procedures.now))) }
    ensures refused { IfErr result IsMemory }
{
    let mut work = copied(rows)?;
    let mut asked = copied(rows)?;
    let mut costs = Vec::new(alloc);
    for index in 0..procedures.len() {
        let Some((_, algorithm)) = procedures.get_index(index) else {
            return Ok(costs);
        };
        costs.push(cost(alloc, algorithm, rows, &mut work, &mut asked)?)?;
    }
    Ok(costs)
}

// The sum at the place of a name, 0 where the name has none.
pub(crate) fn at<V>(table: &IndexMap<String, V>, sums: &[Option<u64>], name: &str) -> Option<u64>
    ensures { result ≡ value_at (table_names table.now) sums.now (Some 0) name.now }
{
    match table.get_index_of(name) {
        Some(index) => match sums.get(index) {
            Some(sum) => *sum,
            None => Some(0),
        },
        None => Some(0),
    }
}

// The cost of the algorithm that an action runs, if it runs one.
fn worked(block: &Block, prices: &Prices, action: &Action) -> Option<u64>
    ensures { (costs : Costs) → ArePrices prices.now costs → IsSum result (worked block.now costs action.now) }
{
    match &action.algorithm {
        Some(algorithm) => at(&block.procedures, &prices.algorithms, algorithm.as_str()),
        None => Some(0),
    }
}

// The load of the output that an action emits, if it emits one.
fn emitted(block: &Block, prices: &Prices, action: &Action) -> Option<u64>
    ensures { (costs : Costs) → ArePrices prices.now costs → IsSum result (emitted block.now costs action.now) }
{
    match &action.output {
        Some(output) => at(&block.face.event_outputs, &prices.outputs, output.as_str()),
        None => Some(0),
    }
}

/// What an action costs: its algorithm, and the load of what it emits.
pub(crate) fn acted(block: &Block, prices: &Prices, action: &Action) -> Option<u64>
    ensures { (costs : Costs) → ArePrices prices.now costs → IsSum result (acted block.now costs action.now) }
{
    plus(
        worked(block, prices, action),
        emitted(block, prices, action),
    )
}
