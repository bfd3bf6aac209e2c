//! What the rows of a chart's states and event inputs have to pay for.

use crate::term::{Account, Cause, Term};
use fb_check_ranges::block_rows;
use fb_flat::{Leaf, joined};
use fb_ranges::{copied, max_steps};
use fb_types_blocks::{Action, Block, Transition};
use std::alloc::AllocError;

// More steps than any row has.
const ENDLESS: u64 = 1_000_000_000_001;

// Adds what the algorithm of this name costs.
fn add_algorithm(
    account: &Account<'_>,
    leaf: &Leaf,
    block: &Block,
    name: &String,
    terms: &mut Vec<Term>,
) -> Result<(), AllocError> {
    if account.column.unit() == 0 {
        return Ok(());
    }
    let Some(algorithm) = block.procedures.get(name.as_str()) else {
        return Ok(());
    };
    let rows = block_rows(
        account.alloc,
        account.certificate,
        leaf.path.as_str(),
        block,
    )?;
    let mut work = copied(&rows)?;
    let mut asked = copied(&rows)?;
    let most = max_steps(account.alloc, algorithm, &rows, &mut work, &mut asked).map_err(
        |_| AllocError,
    )?;
    terms.push(Term {
        amount: most.unwrap_or(ENDLESS),
        cause: Cause::Algorithm(name.clone()?),
    })?;
    Ok(())
}

/// Adds the rows of what an event output leads to.
pub fn add_output(
    account: &Account<'_>,
    leaf: &Leaf,
    name: &str,
    terms: &mut Vec<Term>,
) -> Result<(), AllocError> {
    for output in &leaf.outputs {
        if output.name.as_str() == name {
            for target in &output.targets {
                let path = joined(account.alloc, target.path.as_str(), target.event.as_str())?;
                terms.push(Term {
                    amount: account.column.weight(account.certificate, path.as_str()),
                    cause: Cause::Event(path),
                })?;
            }
        }
    }
    Ok(())
}

// What the actions of a state cost.
fn own_terms(
    account: &Account<'_>,
    leaf: &Leaf,
    block: &Block,
    actions: &[Action],
) -> Result<Vec<Term>, AllocError> {
    let mut terms = Vec::new(account.alloc);
    for action in actions {
        if let Some(name) = &action.algorithm {
            add_algorithm(account, leaf, block, name, &mut terms)?;
        }
        if let Some(name) = &action.output {
            add_output(account, leaf, name.as_str(), &mut terms)?;
        }
    }
    Ok(terms)
}

/// Adds what a dispatch or a crossing counts in the column, where it counts.
pub fn add_unit(
    account: &Account<'_>,
    cause: Cause,
    terms: &mut Vec<Term>,
) -> Result<(), AllocError> {
    let amount = account.column.unit();
    if amount > 0 {
        terms.push(Term { amount, cause })?;
    }
    Ok(())
}

// Adds a crossing, and the row of the state that it leads to.
fn add_crossing(
    account: &Account<'_>,
    leaf: &Leaf,
    transition: &Transition,
    terms: &mut Vec<Term>,
) -> Result<(), AllocError> {
    let path = joined(
        account.alloc,
        leaf.path.as_str(),
        transition.target.as_str(),
    )?;
    add_unit(account, Cause::Crossing, terms)?;
    terms.push(Term {
        amount: account.column.charge(account.certificate, path.as_str()),
        cause: Cause::State(path),
    })?;
    Ok(())
}

/// What the row of a state has to pay for: its actions, and behind them each transition from it without an event.
pub fn state_demands(
    account: &Account<'_>,
    leaf: &Leaf,
    block: &Block,
    state: &str,
) -> Result<Vec<Vec<Term>>, AllocError> {
    let mut demands = Vec::new(account.alloc);
    let Some(actions) = block.states.get(state) else {
        return Ok(demands);
    };
    demands.push(own_terms(account, leaf, block, actions)?)?;
    for transition in &block.transitions {
        if transition.source.as_str() == state && transition.event.is_none() {
            let mut terms = own_terms(account, leaf, block, actions)?;
            add_crossing(account, leaf, transition, &mut terms)?;
            demands.push(terms)?;
        }
    }
    Ok(demands)
}

// Whether an event opens a transition: one that names it, or names none.
fn opens(transition: &Transition, event: &str) -> bool {
    match &transition.event {
        Some(named) => named.as_str() == event,
        None => true,
    }
}

/// What the row of an event input has to pay for: each transition that it opens.
pub fn input_demands(
    account: &Account<'_>,
    leaf: &Leaf,
    block: &Block,
    event: &str,
) -> Result<Vec<Vec<Term>>, AllocError> {
    let mut demands = Vec::new(account.alloc);
    for transition in &block.transitions {
        if opens(transition, event) {
            let mut terms = Vec::new(account.alloc);
            add_unit(account, Cause::Dispatch, &mut terms)?;
            add_crossing(account, leaf, transition, &mut terms)?;
            demands.push(terms)?;
        }
    }
    Ok(demands)
}
