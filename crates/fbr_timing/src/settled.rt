//! How long an event takes beside others that come at known rates: the least fixed point.
//!
//! While an event is under way, one event of each other arrival may wait before it, and more come at their rates. All of these are dispatched in the same queue, each
//! dispatch in a turn of its own. So all has ended within the least time that contains the dispatches and turns of all that comes in it, and within the response by
//! the depth of the queue. This holds if each event has ended before the next one comes at the same arrival.

use crate::counted::Row;
use crate::rates::Comes;

/// How often a longer time is tried.
const ROUNDS: usize = 10_000;

// What the own event and all others that come in so many picoseconds take together, with their turns.
fn taken_in(rows: &[Row], own: usize, overhead: u64, picoseconds: u64) -> u64 {
    let mut time: u64 = 0;
    let mut turns: u64 = 0;
    for (index, row) in rows.iter().enumerate() {
        if let (Some(took), Some(comes)) = (row.most.took, row.comes) {
            let count = if index == own {
                1
            } else {
                comes.count(picoseconds)
            };
            time = time.saturating_add(took.time.saturating_mul(count));
            turns = turns.saturating_add(row.most.dispatches.all.saturating_mul(count));
        }
    }
    time.saturating_add(turns.saturating_mul(overhead))
}

// The least time in which an event has ended beside the others, if there is one.
fn settled_in(rows: &[Row], own: usize, overhead: u64) -> Option<u64> {
    let mut time = 0;
    for _ in 0..ROUNDS {
        let next = taken_in(rows, own, overhead, time);
        if next == u64::MAX {
            return None;
        }
        if next == time {
            return Some(time);
        }
        time = next;
    }
    None
}

// Whether an event has ended before the next one comes at the same arrival.
fn is_in_time(row: &Row) -> bool {
    let Some(settled) = row.settled else {
        return false;
    };
    match row.comes {
        Some(Comes::Apart(period)) => settled <= period,
        Some(Comes::Once) => true,
        Some(Comes::Unsaid) | None => false,
    }
}

// Whether all of them have.
fn are_in_time(rows: &[Row]) -> bool {
    for row in rows {
        if !is_in_time(row) {
            return false;
        }
    }
    true
}

/// What becomes of a resource at known rates.
#[derive(Clone, Copy)]
pub(crate) struct Settled {
    /// Whether each event has ended before the next one comes at the same arrival, so that the times hold.
    pub holds: bool,
    /// The depth of its queue.
    pub depth: u64,
    /// The depth with which no event is denied, if the times hold: room for one event of each arrival.
    pub enough: u64,
}

// Notes the least time of a row, or its response, if that is less.
fn note(row: &mut Row, settled: Option<u64>) {
    if let Some(took) = row.most.took {
        row.settled = Some(settled.unwrap_or(took.response).min(took.response));
    }
}

/// Finds the times of all arrivals of a resource, and whether they hold.
pub(crate) fn settle(rows: &mut Vec<Row>, overhead: u64) -> bool {
    for index in 0..rows.len() {
        let settled = settled_in(rows, index, overhead);
        if let Some(row) = rows.get_mut(index) {
            note(row, settled);
        }
    }
    are_in_time(rows)
}
