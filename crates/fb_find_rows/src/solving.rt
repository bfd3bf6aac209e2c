//! Least numbers within a limit.

ghost use Rattle.std.specs.Prelude.{◌≡◌, ◌≤◌, length, map, slice_index, slice_index_or, string_bytes, ◌++◌, [], IfErr, IfOk};
ghost use Rattle.std.specs.List.{All};
ghost use Rattle.fb_find_graph.specs.Graphs.{IsOrder};
ghost use Rattle.fb_find_graph.specs.Systems.{needs, IsLeast, IsSystem};
ghost use Rattle.fb_find_graph.specs.Views.{system_of};
ghost use Rattle.fb_find_rows.specs.Places.{text_at, texts_of};
ghost use Rattle.fb_find_rows.specs.Faults.{IsPastLimit, IsResourceIn};

use crate::resource::resource_in;
use fb_faults::NoBound;
use fb_find_graph::{Alternative, Solved, solve};
use indexmap::IndexSet;
use std::alloc::{AllocError, Global};

/// The nodes of a system, in the order of their numbers: the rows of its states, behind them those of its events, and behind these the end of each channel by
/// its path.
#[derive(Clone, Copy)]
pub struct Nodes<'a> {
    pub states: &'a IndexSet<String>,
    pub events: &'a IndexSet<String>,
    pub ends: &'a [String],
}

// The text of a number among the keys of a set, and behind them these texts.
fn text_behind<'a>(first: &'a IndexSet<String>, behind: &'a [String], number: usize) -> &'a str
    ensures { result.now ≡ slice_index_or (texts_of first.now ++ map string_bytes behind.now) number [] }
{
    match first.get_index(number) {
        Some(text) => text.as_str(),
        None => match behind.get(number - first.len()) {
            Some(text) => text.as_str(),
            None => "",
        },
    }
}

// The resource of the text of a number.
fn resource_at(alloc: Global, nodes: &Nodes, number: usize) -> Result<String, AllocError>
    ensures { IfOk result (λ s. IsResourceIn (text_at (texts_of nodes.now.states.now) (texts_of nodes.now.events.now) (map string_bytes nodes.now.ends.now) number) (string_bytes s)) }
{
    match nodes.states.get_index(number) {
        Some(text) => resource_in(alloc, text.as_str()),
        None => {
            let place = number - nodes.states.len();
            resource_in(alloc, text_behind(nodes.events, nodes.ends, place))
        }
    }
}

/// The least numbers of all nodes, each within the limit; or the resource of a node whose least number is above it, where that of a channel is the resource of
/// its end.
pub fn solved(
    alloc: Global,
    nodes: &Nodes,
    system: &[Vec<Alternative>],
    order: &[usize],
    limit: u64,
) -> Result<Vec<u64>, NoBound>
    requires system { IsSystem (system_of system.now) }
    requires order { IsOrder (needs (system_of system.now)) order.now }
    ensures sized { IfOk result (λ v. length v.items ≡ length (system_of system.now)) }
    ensures small { IfOk result (λ v. All (λ n. n ≤ limit) v.items) }
    ensures least { IfOk result (λ v. IsLeast (system_of system.now) (slice_index v.items)) }
    ensures refused { IfErr result (IsPastLimit (system_of system.now) limit (texts_of nodes.now.states.now) (texts_of nodes.now.events.now) (map string_bytes nodes.now.ends.now)) }
{
    match solve(alloc, system, order, limit)? {
        Solved::Numbers(numbers) => Ok(numbers),
        Solved::Above(place) => Err(NoBound::Limit(resource_at(alloc, nodes, place)?)),
    }
}
