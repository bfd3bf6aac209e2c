//! An order in which numbers can be found, or a closed walk.

ghost use Rattle.std.specs.Prelude.{length, IfErr, IfOk};
ghost use Rattle.fb_find_graph.specs.Graphs.{IsOrder};
ghost use Rattle.fb_find_graph.specs.Systems.{needs, IsSystem};
ghost use Rattle.fb_find_graph.specs.Views.{system_of};
ghost use Rattle.fb_find_rows.specs.Places.{texts_of};
ghost use Rattle.fb_find_rows.specs.Faults.{IsWalk};

use crate::place::places;
use fb_faults::NoBound;
use fb_find_graph::{Alternative, Sorted, rows_needed, sort_places};
use indexmap::IndexSet;
use std::alloc::Global;

/// Each place after all that it demands, where states and behind them events have these rows, and behind these there are channels; or a closed walk of places, that begins at the first one of it.
pub fn sorted(
    alloc: Global,
    states: &IndexSet<String>,
    events: &IndexSet<String>,
    channels: &[u16],
    system: &[Vec<Alternative>],
) -> Result<Vec<usize>, NoBound>
    requires { IsSystem (system_of system.now) }
    ensures ordered { IfOk result (λ order. IsOrder (needs (system_of system.now)) order.items) }
    ensures walk { IfErr result (IsWalk (system_of system.now) (texts_of states.now) (texts_of events.now) channels.now) }
{
    let graph = rows_needed(alloc, system)?;
    match sort_places(alloc, graph.as_slice())? {
        Sorted::Order(order) => Ok(order),
        Sorted::Walk(walk) => Err(NoBound::Cycle(places(
            alloc,
            states,
            events,
            channels,
            walk.as_slice(),
        )?)),
    }
}
