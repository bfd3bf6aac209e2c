//! The table, for people.

use crate::counted::{Row, Timed};
use crate::duration::{digits, duration_width, put_duration};
use crate::list::PriceList;
use crate::rates::Comes;
use crate::settled::Settled;
use fbr_places::Writing;

/// How wide the columns of numbers are.
const WIDE: usize = 12;

// Writes so many spaces, less what is as wide as this.
fn put_space(width: usize, taken: usize, writing: &mut Writing) {
    for _ in taken..width {
        writing.put(" ");
    }
}

// Writes a text to the right of a column.
fn put_right(text: &str, writing: &mut Writing) {
    put_space(WIDE, text.len(), writing);
    writing.put(text);
}

// Writes a text to the left of a column.
fn put_left(text: &str, width: usize, writing: &mut Writing) {
    writing.put(text);
    put_space(width, text.len(), writing);
}

// Writes a number to the right of a column.
fn put_number(number: u64, writing: &mut Writing) {
    put_space(WIDE, digits(number), writing);
    writing.show(&number);
}

// Writes a duration to the right of a column.
fn put_time(picoseconds: u64, writing: &mut Writing) {
    put_space(WIDE, duration_width(picoseconds), writing);
    put_duration(picoseconds, writing);
}

// The path of an arrival within its resource.
fn within<'r>(timed: &Timed<'_>, row: &'r Row) -> &'r str {
    let path = row.path.as_str();
    match path.strip_prefix(timed.resource.path.as_str()) {
        Some(rest) => rest.strip_prefix('.').unwrap_or(rest),
        None => path,
    }
}

// How wide the names of a resource's arrivals are.
fn name_width(timed: &Timed<'_>) -> usize {
    let mut width = "event".len();
    for row in &timed.rows {
        width = within(timed, row).len().max(width);
    }
    width
}

// Writes the head of a table.
fn put_head(timed: &Timed<'_>, width: usize, writing: &mut Writing) {
    writing.put("  ");
    put_left("event", width, writing);
    for name in ["dispatches", "in a row", "beside", "turns", "work"] {
        put_right(name, writing);
    }
    if timed.overhead.is_some() {
        put_right("time", writing);
        put_right("response", writing);
    }
    if timed.settled.is_some() {
        put_right("apart", writing);
        put_right("at rates", writing);
    }
    writing.put("\n");
}

// Writes a duration to the right of a column, or `-` if there is none.
fn put_maybe_time(picoseconds: Option<u64>, writing: &mut Writing) {
    match picoseconds {
        Some(picoseconds) => put_time(picoseconds, writing),
        None => put_right("-", writing),
    }
}

// Writes how far apart the events of a row come, and how long one takes at the rates.
fn put_settled(row: &Row, writing: &mut Writing) {
    if let Some(comes) = row.comes {
        put_maybe_time(comes.apart(), writing);
        put_maybe_time(row.settled, writing);
    }
}

// Writes a row.
fn put_row(timed: &Timed<'_>, row: &Row, width: usize, writing: &mut Writing) {
    let most = row.most;
    let dispatches = most.dispatches;
    writing.put("  ");
    put_left(within(timed, row), width, writing);
    put_number(dispatches.all, writing);
    put_number(dispatches.in_a_row, writing);
    put_right(if dispatches.is_alone { "no" } else { "yes" }, writing);
    put_number(dispatches.end, writing);
    put_number(most.work, writing);
    if let Some(took) = most.took {
        put_time(took.time, writing);
        put_time(took.response, writing);
    }
    put_settled(row, writing);
    writing.put("\n");
}

// Writes why no times hold at the rates because of this row, if they do not.
fn put_obstacle(timed: &Timed<'_>, row: &Row, writing: &mut Writing) {
    match (row.comes, row.settled) {
        (Some(Comes::Unsaid), _) => {
            writing.put("  no rate is known for ");
            writing.put(within(timed, row));
            writing.put("\n");
        }
        (Some(Comes::Apart(period)), Some(settled)) if settled > period => {
            writing.put("  ");
            writing.put(within(timed, row));
            writing.put(" comes again before all has ended\n");
        }
        _ => {}
    }
}

// Writes whether the times hold at the rates, and whether an event may be denied.
fn put_verdict(timed: &Timed<'_>, settled: Settled, writing: &mut Writing) {
    if !settled.holds {
        for row in &timed.rows {
            put_obstacle(timed, row, writing);
        }
        writing.put("  so no time holds at these rates\n");
    } else if settled.depth >= settled.enough {
        writing.put("  at these rates no event is denied: DEPTH ");
        writing.show(&settled.depth);
        writing.put(" has room for one of each\n");
    } else {
        writing.put("  at these rates an event may be denied: DEPTH is ");
        writing.show(&settled.depth);
        writing.put("; with DEPTH ");
        writing.show(&settled.enough);
        writing.put(" none is\n");
    }
}

/// Writes what the arrivals of a resource take.
pub(crate) fn put_table(timed: &Timed<'_>, writing: &mut Writing) {
    writing.put(timed.resource.path.as_str());
    if let Some(overhead) = timed.overhead {
        writing.put(": a turn takes at most ");
        put_duration(overhead, writing);
        writing.put(" besides its dispatch");
    }
    writing.put("\n");
    let width = name_width(timed);
    put_head(timed, width, writing);
    for row in &timed.rows {
        put_row(timed, row, width, writing);
    }
    if let Some(settled) = timed.settled {
        put_verdict(timed, settled, writing);
    }
}

/// Writes what the columns say.
pub(crate) fn put_meaning(list: Option<&PriceList<'_>>, writing: &mut Writing) {
    writing.put(
        "proved: an event has ended after at most so many turns from its admission, and its dispatches do together at most so much work, counted in primitives.\n",
    );
    match list {
        Some(list) => {
            writing.put("measured: time and response are at the prices of this program on ");
            writing.put(list.machine);
            writing.put(
                "; response counts from admission, if a turn follows the one before at once.\nseen: the system delayed a turn by up to ",
            );
            put_duration(list.around.jitter, writing);
            writing.put(
                " while the prices were measured; this comes on top, and no bound of it is known.\n",
            );
        }
        None => writing.put(
            "not known: how long that takes. `fbr-calibrate` measures the prices of a machine, and `--calibration FILE` puts them in.\n",
        ),
    }
}
