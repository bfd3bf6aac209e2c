//! The least numbers that fulfil inequalities over numbered places.

ghost use Rattle.std.specs.Prelude.{◌≡◌, ◌≢◌, ◌+◌, ◌*◌, ◌<◌, ◌≤◌, ◌↔◌, length, ℕ, List, IfOk, IsTrue, slice_index, MatchOption, map};
ghost use Rattle.std.specs.List.{All, Contains};
ghost use Rattle.fb_find_graph.specs.Graphs.{IsOrder};
ghost use Rattle.fb_find_graph.specs.Searches.{rows_of};
ghost use Rattle.fb_find_graph.specs.Systems.{Inequality, asks, needed, needs, IsGreatest, IsSystem};
ghost use Rattle.fb_find_graph.specs.Views.{inequality_of, system_of, IsSolved};

use std::alloc::{AllocError, Global};

/// A right side: a constant, and the numbers of its terms, each as often as it stands there.
#[derive(Drop)]
pub struct Alternative {
    pub constant: u64,
    pub terms: Vec<usize>,
}

/// The least numbers, or a place whose least number is above the limit.
#[derive(Drop)]
pub enum Solved {
    Numbers(Vec<u64>),
    Above(usize),
}

/// What a right side comes to, where that is within the limit.
fn right_side(alternative: &Alternative, numbers: &[u64], limit: u64) -> Option<u64>
    requires { All (λ q. q < length numbers.now) alternative.now.terms.items }
    ensures { MatchOption result (limit < asks (slice_index numbers.now) (inequality_of alternative.now)) (λ n. (n ≡ asks (slice_index numbers.now) (inequality_of alternative.now)) × (n ≤ limit)) }
{
    let mut total: u64 = 0;
    for term in &alternative.terms {
        let number = numbers[*term];
        if number > limit - total {
            return None;
        }
        total += number;
    }
    if alternative.constant > limit - total {
        return None;
    }
    Some(alternative.constant + total)
}

/// The greatest of right sides, where that is within the limit.
fn greatest(alternatives: &[Alternative], numbers: &[u64], limit: u64) -> Option<u64>
    requires { (q : ℕ) → Contains (needed (map inequality_of alternatives.now)) q → q < length numbers.now }
    ensures { MatchOption result ((a : Inequality) × Contains (map inequality_of alternatives.now) a × (limit < asks (slice_index numbers.now) a)) (λ n. IsGreatest (slice_index numbers.now) (map inequality_of alternatives.now) n × (n ≤ limit)) }
{
    let mut most: u64 = 0;
    for alternative in alternatives {
        match right_side(alternative, numbers, limit) {
            Some(number) => most = most.max(number),
            None => return None,
        }
    }
    Some(most)
}

/// The least numbers that fulfil the inequalities, found along an order in which each place stands after all that its right sides need: one pass.
pub fn solve(
    alloc: Global,
    system: &[Vec<Alternative>],
    order: &[usize],
    limit: u64,
) -> Result<Solved, AllocError>
    requires system { IsSystem (system_of system.now) }
    requires order { IsOrder (needs (system_of system.now)) order.now }
    ensures { IfOk result (IsSolved (system_of system.now) limit) }
{
    let mut numbers: Vec<u64> = vec![in alloc; 0; system.len()]?;
    for place in order {
        match greatest(&system[*place], &numbers, limit) {
            Some(number) => numbers[*place] = number,
            None => return Ok(Solved::Above(*place)),
        }
    }
    Ok(Solved::Numbers(numbers))
}

/// What the right sides of a place need.
fn needed_by(alloc: Global, alternatives: &[Alternative]) -> Result<Vec<usize>, AllocError>
    ensures { IfOk result (λ row. row.items ≡ needed (map inequality_of alternatives.now)) }
{
    let mut row = Vec::new(alloc);
    for alternative in alternatives {
        row.extend_from_slice(&alternative.terms)?;
    }
    Ok(row)
}

/// What each place needs: the terms of all its right sides.
pub fn rows_needed(
    alloc: Global,
    system: &[Vec<Alternative>],
) -> Result<Vec<Vec<usize>>, AllocError>
    ensures { IfOk result (λ graph. rows_of graph.items ≡ needs (system_of system.now)) }
{
    let mut graph = Vec::new(alloc);
    for alternatives in system {
        graph.push(needed_by(alloc, alternatives)?)?;
    }
    Ok(graph)
}
