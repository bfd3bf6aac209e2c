//! When the rows of a basic block pay in a column.

ghost use Rattle.std.specs.Prelude.{◌≡◌, ℕ, List, None, Some, IfOk, IfErr, MatchResult, map, get_or, string_bytes};
ghost use Rattle.std.specs.List.{sum_by};
ghost use Rattle.fb_check_columns.specs.Reckoning.{table_names, charge_of, value_at, AreSums, Costs, ArePrices, acted, own_of, free_next, most_free};
ghost use Rattle.fb_check_columns.specs.Read.{AreRead};
ghost use Rattle.fb_check_columns.specs.Sums.{IsSum, greater};
ghost use Rattle.fb_check_columns.specs.Columns.{crossing_need};
ghost use Rattle.fb_check_columns.specs.Paying.{IsMemory, IsCharge, IsWeight, Names, NamesOne, StatePays, SourcePays, InputPays, EventPays, event_named, ChartPays, IsOwing};

use crate::column::{Column, plus};
use crate::cost::{Prices, acted, at};
use crate::rows::{Rows, charges, weights};
use crate::weights::{charged, weighed};
use fb_cert::Certificate;
use fb_faults::Shortfall;
use fb_types_blocks::{Action, Block, Transition};
use indexmap::IndexMap;
use std::alloc::Global;

// What the actions of a state cost by themselves.
fn own(block: &Block, prices: &Prices, actions: &[Action]) -> Option<u64>
    ensures { (costs : Costs) → ArePrices prices.now costs → IsSum result (sum_by (acted block.now costs) actions.now) }
{
    let mut sum = Some(0);
    for action in actions {
        sum = plus(sum, acted(block, prices, action));
    }
    sum
}

// What each state costs by itself, in the order of the states.
fn costs(
    alloc: Global,
    block: &Block,
    prices: &Prices,
    states: &IndexMap<String, Vec<Action>>,
) -> Result<Vec<Option<u64>>, Shortfall>
    ensures values { (costs : Costs) → ArePrices prices.now costs → IfOk result (λ v. AreSums v.items (map (own_of block.now costs) states.now.entries)) }
    ensures refused { IfErr result IsMemory }
{
    let mut costs = Vec::new(alloc);
    for index in 0..states.len() {
        let Some((_, actions)) = states.get_index(index) else {
            return Ok(costs);
        };
        costs.push(own(block, prices, actions.as_slice()))?;
    }
    Ok(costs)
}

// The sum at a place, 0 where there is none.
fn sum_at(sums: &[Option<u64>], index: usize) -> Option<u64>
    ensures { result ≡ get_or sums.now index (Some 0) }
{
    match sums.get(index) {
        Some(sum) => *sum,
        None => Some(0),
    }
}

// Each state's charge is at least what its actions cost.
fn states_pay(alloc: Global, rows: &Rows, costs: &[Option<u64>]) -> Result<(), Shortfall>
    requires { AreRead rows.now }
    ensures { (prices : Costs) → AreSums costs.now (map (own_of rows.now.block.now prices) rows.now.block.now.states.entries) → NamesOne (IsCharge rows.now.path.now) (λ s. string_bytes s.0) (StatePays rows.now.column rows.now.certificate.now rows.now.path.now rows.now.block.now prices) rows.now.block.now.states.entries result }
{
    let states = &rows.block.states;
    for index in 0..states.len() {
        let Some((name, _)) = states.get_index(index) else {
            return Ok(());
        };
        let cost = sum_at(costs, index);
        let most = rows.charge_at(index);
        charged(alloc, rows.path, name.as_str(), cost, most)?;
    }
    Ok(())
}

// A free transition is paid for by the charge of the state that it leaves.
fn source_pays(
    alloc: Global,
    rows: &Rows,
    costs: &[Option<u64>],
    transition: &Transition,
) -> Result<(), Shortfall>
    requires { AreRead rows.now }
    ensures { (ns : List ℕ) → AreSums costs.now ns → Names (IsCharge rows.now.path.now) (string_bytes transition.now.source) (SourcePays rows.now.column rows.now.certificate.now rows.now.path.now (value_at (table_names rows.now.block.now.states) ns 0) transition.now) result }
{
    match &transition.event {
        Some(_) => Ok(()),
        None => {
            let source = transition.source.as_str();
            let next = rows.charge(alloc, transition.target.as_str())?;
            let most = rows.charge(alloc, source)?;
            let own = plus(
                at(&rows.block.states, costs, source),
                Some(rows.column.unit()),
            );
            charged(alloc, rows.path, source, plus(own, Some(next)), most)
        }
    }
}

// The same of each of these transitions.
fn sources_pay(
    alloc: Global,
    rows: &Rows,
    costs: &[Option<u64>],
    transitions: &[Transition],
) -> Result<(), Shortfall>
    requires { AreRead rows.now }
    ensures { (ns : List ℕ) → AreSums costs.now ns → NamesOne (IsCharge rows.now.path.now) (λ t. string_bytes t.source) (SourcePays rows.now.column rows.now.certificate.now rows.now.path.now (value_at (table_names rows.now.block.now.states) ns 0)) transitions.now result }
{
    for transition in transitions {
        source_pays(alloc, rows, costs, transition)?;
    }
    Ok(())
}

// The greater of two numbers, where there are any.
fn greater(a: Option<u64>, b: Option<u64>) -> Option<u64>
    ensures { result ≡ greater a b }
{
    match a {
        Some(a) => match b {
            Some(b) => Some(a.max(b)),
            None => Some(a),
        },
        None => b,
    }
}

// The charge of the state that a transition leads to, where it is free.
fn free_next(alloc: Global, rows: &Rows, transition: &Transition) -> Result<Option<u64>, Shortfall>
    requires { AreRead rows.now }
    ensures value { IfOk result (λ next. next ≡ free_next (charge_of rows.now.column rows.now.certificate.now rows.now.path.now) transition.now) }
    ensures refused { IfErr result IsMemory }
{
    match &transition.event {
        Some(_) => Ok(None),
        None => Ok(Some(rows.charge(alloc, transition.target.as_str())?)),
    }
}

// The greatest charge of a state that a free transition leads to.
fn free_charge(
    alloc: Global,
    rows: &Rows,
    transitions: &[Transition],
) -> Result<Option<u64>, Shortfall>
    requires { AreRead rows.now }
    ensures value { IfOk result (λ most. most ≡ most_free (charge_of rows.now.column rows.now.certificate.now rows.now.path.now) None transitions.now) }
    ensures refused { IfErr result IsMemory }
{
    let mut most = None;
    for transition in transitions {
        most = greater(most, free_next(alloc, rows, transition)?);
    }
    Ok(most)
}

// What a crossing to a state of this charge needs, after the dispatch; nothing where nothing is crossed.
fn crossing(column: Column, next: Option<u64>) -> Option<u64>
    ensures { IsSum result (crossing_need column next) }
{
    let units = plus(Some(column.unit()), Some(column.unit()));
    match next {
        Some(next) => plus(units, Some(next)),
        None => Some(0),
    }
}

// Each event input's weight pays for its dispatch, and for a crossing to a state of this charge.
fn inputs_pay(alloc: Global, rows: &Rows, next: Option<u64>) -> Result<(), Shortfall>
    requires { AreRead rows.now }
    ensures { NamesOne (IsWeight rows.now.path.now) (λ e. e) (InputPays rows.now.column rows.now.certificate.now rows.now.path.now next) (table_names rows.now.block.now.face.event_inputs) result }
{
    let inputs = &rows.block.face.event_inputs;
    for index in 0..inputs.len() {
        let Some((event, _)) = inputs.get_index(index) else {
            return Ok(());
        };
        let need = crossing(rows.column, next);
        weighed(
            alloc,
            rows.path,
            event.as_str(),
            need,
            rows.weight_at(index),
        )?;
    }
    Ok(())
}

// The weight of the event that a transition names pays for its crossing.
fn event_pays(alloc: Global, rows: &Rows, transition: &Transition) -> Result<(), Shortfall>
    requires { AreRead rows.now }
    ensures { Names (IsWeight rows.now.path.now) (event_named transition.now) (EventPays rows.now.column rows.now.certificate.now rows.now.path.now transition.now) result }
{
    match &transition.event {
        Some(event) => {
            let next = rows.charge(alloc, transition.target.as_str())?;
            let need = crossing(rows.column, Some(next));
            let weight = rows.weight(alloc, event.as_str())?;
            weighed(alloc, rows.path, event.as_str(), need, weight)
        }
        None => Ok(()),
    }
}

// The same of each of these transitions.
fn events_pay(alloc: Global, rows: &Rows, transitions: &[Transition]) -> Result<(), Shortfall>
    requires { AreRead rows.now }
    ensures { NamesOne (IsWeight rows.now.path.now) event_named (EventPays rows.now.column rows.now.certificate.now rows.now.path.now) transitions.now result }
{
    for transition in transitions {
        event_pays(alloc, rows, transition)?;
    }
    Ok(())
}

// The rows of a block pay, where its actions' parts have these prices.
fn rows_pay(alloc: Global, rows: &Rows, prices: &Prices) -> Result<(), Shortfall>
    requires { AreRead rows.now }
    ensures { (costs : Costs) → ArePrices prices.now costs → MatchResult result (λ u. ChartPays rows.now.column rows.now.certificate.now rows.now.path.now rows.now.block.now costs) (IsOwing rows.now.column rows.now.certificate.now rows.now.path.now rows.now.block.now costs) }
{
    let own = costs(alloc, rows.block, prices, &rows.block.states)?;
    let costs = own.as_slice();
    let transitions = rows.block.transitions.as_slice();
    states_pay(alloc, rows, costs)?;
    sources_pay(alloc, rows, costs, transitions)?;
    let next = free_charge(alloc, rows, transitions)?;
    inputs_pay(alloc, rows, next)?;
    events_pay(alloc, rows, transitions)
}

/// The rows of a basic block pay in a column, where the parts of its actions have these prices.
pub(crate) fn chart_pays(
    alloc: Global,
    certificate: &Certificate,
    column: Column,
    path: &str,
    block: &Block,
    prices: &Prices,
) -> Result<(), Shortfall>
    ensures { (costs : Costs) → ArePrices prices.now costs → MatchResult result (λ u. ChartPays column certificate.now path.now block.now costs) (IsOwing column certificate.now path.now block.now costs) }
{
    let charges = charges(alloc, certificate, column, path, &block.states)?;
    let weights = weights(alloc, certificate, column, path, &block.face.event_inputs)?;
    let rows = Rows {
        certificate,
        column,
        path,
        block,
        charges: charges.as_slice(),
        weights: weights.as_slice(),
    };
    rows_pay(alloc, &rows, prices)
}
