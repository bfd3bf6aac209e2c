//! How many dispatches of its resource an arrival needs.

use fb_flat::{FlatResource, Leaf};
use fb_turns::{Turns, is_alone};
use fb_verified::Verified;
use fbr_places::Writing;
use std::alloc::{AllocError, Global};

/// A resource, how deep its queue is, and the counts of the system.
#[derive(Clone, Copy)]
pub struct Counted<'a> {
    /// The resource.
    pub resource: &'a FlatResource,
    /// The depth of its queue.
    pub depth: u64,
    /// The counts.
    pub turns: &'a Turns,
}

/// How many dispatches one event at an arrival causes.
#[derive(Clone, Copy)]
pub struct Dispatches {
    /// All of them.
    pub all: u64,
    /// Those of the longest chain, each caused by the one before.
    pub in_a_row: u64,
    /// Whether nothing else has room in the queue beside it.
    pub is_alone: bool,
    /// After how many dispatches of the resource all has ended.
    pub end: u64,
}

/// How many dispatches one event at an arrival of a leaf causes.
pub fn dispatches_of(
    alloc: Global,
    verified: &Verified,
    counted: Counted<'_>,
    leaf: &Leaf,
    event: &str,
) -> Result<Dispatches, AllocError> {
    let path = leaf.path.as_str();
    let all = counted.turns.dispatches(alloc, path, event)?;
    let in_a_row = counted.turns.generations(alloc, path, event)?;
    let is_alone = is_alone(alloc, verified, counted.resource, leaf)?;
    let end = if is_alone {
        all
    } else {
        in_a_row.saturating_mul(counted.depth)
    };
    Ok(Dispatches {
        all,
        in_a_row,
        is_alone,
        end,
    })
}

// Writes the counts of an arrival.
fn put_dispatches(resource: &FlatResource, dispatches: Dispatches, writing: &mut Writing) {
    writing.put("        dispatches: ");
    writing.show(&dispatches.all);
    writing.put(" in all, ");
    writing.show(&dispatches.in_a_row);
    writing.put(if dispatches.is_alone {
        " in a row, with no room for others"
    } else {
        " in a row, with others in between"
    });
    writing.put("; all has ended after ");
    writing.show(&dispatches.end);
    writing.put(" dispatches of ");
    writing.put(resource.path.as_str());
    writing.put("\n");
}

/// Writes how many dispatches one event at an arrival of a leaf causes, whether others have room beside it, and after how many dispatches of the resource
/// all has ended that it causes.
pub(crate) fn tell_turns(
    alloc: Global,
    verified: &Verified,
    counted: Counted<'_>,
    leaf: &Leaf,
    event: &str,
    writing: &mut Writing,
) -> Result<(), AllocError> {
    let dispatches = dispatches_of(alloc, verified, counted, leaf, event)?;
    put_dispatches(counted.resource, dispatches, writing);
    Ok(())
}
