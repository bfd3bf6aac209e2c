//! The demands of dispatches: each event counts its own.

ghost use Rattle.std.specs.Prelude.{◌≡◌, ◌++◌, ◌∷◌, [], map, IfOk, OnOk};
ghost use Rattle.std.specs.List.{flat_map};
ghost use Rattle.fb_find_demands.specs.Rights.{right_of, rights_of};
ghost use Rattle.fb_turns.specs.Counting.{all_right, chain_rights, own_of, term_right};

use fb_find_demands::Right;
use std::alloc::{AllocError, Global};

// What a node counts by itself: the dispatch of an event, and nothing of a state.
fn own(states: usize, node: usize) -> u64
    ensures { result ≡ own_of states node }
{
    if node < states { 0 } else { 1 }
}

// A node with its own count, and one term.
fn with_term(alloc: Global, node: usize, constant: u64, term: usize) -> Result<Right, AllocError>
    ensures { IfOk result (λ r. right_of r ≡ record { node = node; constant = constant; terms = term ∷ [] }) }
{
    let mut terms = Vec::new(alloc);
    terms.push(term)?;
    Ok(Right {
        node,
        constant,
        terms,
    })
}

// Adds that a node counts its own dispatch and all terms together.
fn add_all(
    alloc: Global,
    states: usize,
    right: &Right,
    rights: &mut Vec<Right>,
) -> Result<(), AllocError>
    ensures { OnOk result (rights_of rights.new.items ≡ rights_of rights.old.items ++ all_right states (right_of right.now) ∷ []) }
{
    let terms = right.terms.as_slice().to_vec(alloc)?;
    rights.push(Right {
        node: right.node,
        constant: own(states, right.node),
        terms,
    })?;
    Ok(())
}

// Adds that it counts its own dispatch and each of the terms.
fn add_terms(
    alloc: Global,
    states: usize,
    right: &Right,
    rights: &mut Vec<Right>,
) -> Result<(), AllocError>
    ensures { OnOk result (rights_of rights.new.items ≡ rights_of rights.old.items ++ map (term_right states right.now.node) right.now.terms.items) }
{
    let constant = own(states, right.node);
    for term in &right.terms {
        rights.push(with_term(alloc, right.node, constant, *term)?)?;
    }
    Ok(())
}

// Adds that it counts its own dispatch, and with it each of the terms.
fn add_chain(
    alloc: Global,
    states: usize,
    right: &Right,
    rights: &mut Vec<Right>,
) -> Result<(), AllocError>
    ensures { OnOk result (rights_of rights.new.items ≡ rights_of rights.old.items ++ chain_rights states (right_of right.now)) }
{
    rights.push(Right {
        node: right.node,
        constant: own(states, right.node),
        terms: Vec::new(alloc),
    })?;
    add_terms(alloc, states, right, rights)
}

/// What all dispatches together ask, of what a system asks whatever algorithms cost.
pub(crate) fn all_demands(
    alloc: Global,
    states: usize,
    asked: &[Right],
) -> Result<Vec<Right>, AllocError>
    ensures { IfOk result (λ v. rights_of v.items ≡ map (all_right states) (rights_of asked.now)) }
{
    let mut rights = Vec::new(alloc);
    for right in asked {
        add_all(alloc, states, right, &mut rights)?;
    }
    Ok(rights)
}

/// And what those of the longest chain ask.
pub(crate) fn chain_demands(
    alloc: Global,
    states: usize,
    asked: &[Right],
) -> Result<Vec<Right>, AllocError>
    ensures { IfOk result (λ v. rights_of v.items ≡ flat_map (chain_rights states) (rights_of asked.now)) }
{
    let mut rights = Vec::new(alloc);
    for right in asked {
        add_chain(alloc, states, right, &mut rights)?;
    }
    Ok(rights)
}
