//! The report, for programs.

use crate::counted::{Row, Timed};
use crate::list::PriceList;
use crate::settled::Settled;
use crate::way::Found;
use fbr_objects::{List, Object};
use std::alloc::Global;

/// The version of the schema that reports have.
const SCHEMA: u64 = 1;

// What one event at an arrival takes.
fn row_object(alloc: Global, row: &Row) -> Object {
    let most = row.most;
    let dispatches = most.dispatches;
    let mut counts = Object::new(alloc);
    counts.number("all", dispatches.all);
    counts.number("in_a_row", dispatches.in_a_row);
    counts.flag("alone", dispatches.is_alone);
    counts.number("end", dispatches.end);
    let mut object = Object::new(alloc);
    object.text("path", row.path.as_str());
    object.object("dispatches", counts);
    object.number("work", most.work);
    if let Some(took) = most.took {
        object.number("time_ps", took.time);
        object.number("response_ps", took.response);
    }
    if let Some(comes) = row.comes {
        object.maybe_number("apart_ps", comes.apart());
        object.maybe_number("at_rates_ps", row.settled);
    }
    object
}

// What becomes of a resource at the rates.
fn settled_object(alloc: Global, settled: Settled) -> Object {
    let mut object = Object::new(alloc);
    object.flag("holds", settled.holds);
    object.number("depth", settled.depth);
    object.number("enough", settled.enough);
    object
}

/// A resource with its arrivals.
pub(crate) fn resource_object(alloc: Global, timed: &Timed<'_>) -> Object {
    let mut list = List::new(alloc);
    for row in &timed.rows {
        list.object(row_object(alloc, row));
    }
    let mut object = Object::new(alloc);
    object.text("path", timed.resource.path.as_str());
    object.maybe_number("turn_ps", timed.overhead);
    object.list("arrivals", list);
    if let Some(settled) = timed.settled {
        object.object("at_rates", settled_object(alloc, settled));
    }
    object
}

// Where the prices are from.
fn list_object(alloc: Global, list: &PriceList<'_>) -> Object {
    let mut object = Object::new(alloc);
    object.text("machine", list.machine);
    object.number("jitter_ps", list.around.jitter);
    object
}

// A way, leaf by leaf.
fn way_list(alloc: Global, found: &Found<'_>) -> List {
    let mut list = List::new(alloc);
    for leaf in &found.leaves {
        list.text(leaf.path.as_str());
    }
    list
}

/// The whole report.
pub(crate) fn report_object(
    alloc: Global,
    resources: List,
    prices: Option<&PriceList<'_>>,
    way: Option<&Found<'_>>,
) -> Object {
    let mut object = Object::new(alloc);
    object.number("schema", SCHEMA);
    object.text("command", "time");
    object.text("verdict", "accepted");
    object.number("status", 0);
    object.list("timed", resources);
    if let Some(list) = prices {
        object.object("prices", list_object(alloc, list));
    }
    if let Some(found) = way {
        object.list("way", way_list(alloc, found));
    }
    object
}
