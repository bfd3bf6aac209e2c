//! Whether a list of places is a closed walk of demands.

ghost use Rattle.std.specs.Prelude.{◌≡◌, ◌≢◌, ◌+◌, ◌-◌, ◌<◌, ◌≤◌, ◌↔◌, length, ℕ, List, IfOk, IsTrue, slice_index, map};
ghost use Rattle.std.specs.List.{Contains};
ghost use Rattle.fb_find_graph.specs.Systems.{inequalities, IsSystem, IsClosedWalk};
ghost use Rattle.fb_find_graph.specs.Views.{inequality_of, system_of};
ghost use Rattle.fb_find_graph.specs.Walks.{IsGreatestDemand, greater_of, AreApart, IsPaidChain};

use crate::system::Alternative;
use std::alloc::{AllocError, Global};

/// Whether q is a term.
fn has_term(alternative: &Alternative, q: usize) -> bool
    ensures { IsTrue result ↔ Contains (inequality_of alternative.now).terms q }
{
    alternative.terms.contains(&q)
}

/// The greater of the constants so far and another.
fn greater(most: Option<u64>, constant: u64) -> u64
    ensures { result ≡ greater_of most constant }
{
    match most {
        Some(known) => known.max(constant),
        None => constant,
    }
}

/// The greatest constant of the right sides that have q as a term.
fn demand_among(alternatives: &[Alternative], q: usize) -> Option<u64>
    ensures { IsGreatestDemand (map inequality_of alternatives.now) q result }
{
    let mut most = None;
    for alternative in alternatives {
        if has_term(alternative, q) {
            most = Some(greater(most, alternative.constant));
        }
    }
    most
}

/// The greatest constant with which p demands q.
fn demand(system: &[Vec<Alternative>], p: usize, q: usize) -> Option<u64>
    ensures { IsGreatestDemand (inequalities (system_of system.now) p) q result }
{
    if p < system.len() {
        demand_among(&system[p], q)
    } else {
        None
    }
}

/// Whether these are places of so many, and none stands twice.
fn all_differ(alloc: Global, places: &[usize], count: usize) -> Result<bool, AllocError>
    ensures { IfOk result (λ b. IsTrue b ↔ AreApart count places.now) }
{
    let mut seen: Vec<bool> = vec![in alloc; false; count]?;
    for place in places {
        if *place >= count || seen[*place] {
            return Ok(false);
        }
        seen[*place] = true;
    }
    Ok(true)
}

/// Whether each place demands the next, and once with a constant of 1 or more.
fn demands_along(system: &[Vec<Alternative>], walk: &[usize]) -> bool
    requires { 1 < length walk.now }
    ensures { IsTrue result ↔ IsPaidChain (system_of system.now) walk.now }
{
    let mut paid = false;
    for k in 0..walk.len() - 1 {
        match demand(system, walk[k], walk[k + 1]) {
            Some(constant) => {
                if constant > 0 {
                    paid = true;
                }
            }
            None => return false,
        }
    }
    paid
}

/// Whether a walk ends where it begins.
fn closes(walk: &[usize]) -> bool
    requires { 1 < length walk.now }
    ensures { IsTrue result ↔ (slice_index walk.now 0 ≡ slice_index walk.now (length walk.now - 1)) }
{
    walk[0] == walk[walk.len() - 1]
}

/// Whether the places are a closed walk of demands. The time is linear in the places of the system and the demands of the walk's.
pub fn is_closed_walk(
    alloc: Global,
    system: &[Vec<Alternative>],
    walk: &[usize],
) -> Result<bool, AllocError>
    requires { IsSystem (system_of system.now) }
    ensures { IfOk result (λ b. IsTrue b ↔ IsClosedWalk (system_of system.now) walk.now) }
{
    let length = walk.len();
    if length < 2 {
        return Ok(false);
    }
    if !closes(walk) {
        return Ok(false);
    }
    if !demands_along(system, walk) {
        return Ok(false);
    }
    let apart = all_differ(alloc, &walk[..length - 1], system.len())?;
    Ok(apart)
}
