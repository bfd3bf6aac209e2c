//! How long until all has ended, from admission.
//!
//! In a turn a device sets its clock, takes at most 16 datagrams, and dispatches each resource once. An event with no other cause beside it ends with its last dispatch: it
//! takes the time of its own dispatches, and so many turns besides. An event with others beside it ends after its longest chain of emissions, each of which waits for a whole queue.

use crate::list::Around;
use fbr_explain::Dispatches;

/// How many datagrams a turn takes at most.
const DATAGRAMS: u64 = 16;

/// What a turn takes besides the dispatches of one resource.
#[derive(Clone, Copy)]
pub(crate) struct Sides {
    pub around: Around,
    /// How many resources the device has.
    pub resources: usize,
    /// What the dearest dispatches of its other resources take.
    pub others: u64,
}

/// How much that is, in picoseconds.
pub(crate) fn overhead_of(sides: Sides) -> u64 {
    let around = sides.around;
    let effects = around.effect.saturating_mul(sides.resources as u64);
    around
        .turn
        .saturating_add(around.datagram.saturating_mul(DATAGRAMS))
        .saturating_add(effects)
        .saturating_add(sides.others)
}

/// How long an event takes from admission, if its dispatches take `time` together, the dearest event of its resource takes `dearest`, and a turn takes `overhead` besides.
pub(crate) fn response_of(dispatches: Dispatches, time: u64, dearest: u64, overhead: u64) -> u64 {
    if dispatches.is_alone {
        return time.saturating_add(dispatches.end.saturating_mul(overhead));
    }
    dispatches
        .end
        .saturating_mul(overhead.saturating_add(dearest))
}
