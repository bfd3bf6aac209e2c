//! What is needed and what is there.

use crate::places::{put_numbers, put_of, put_range};
use crate::walk::walk_list;
use fbr_diagnosis::{Asked, Diagnosis, Finding};
use fbr_faults::{Fault, Wrong};
use fbr_needs::{
    Arrival, ArrivalKind, Cause, Flood, Missing, Numbers, Queue, RangeLink, RangeStart, Sum, Term,
};
use fbr_objects::{List, Object};
use std::alloc::Global;

// Sentences, a line each.
fn sentences(alloc: Global, said: &str) -> List {
    let mut list = List::new(alloc);
    for line in said.lines() {
        list.text(line);
    }
    list
}

// A statement or an operation at fault.
fn put_fault(alloc: Global, fault: &Fault, object: &mut Object) {
    match &fault.wrong {
        Wrong::Divisor(divisor) => {
            object.text("kind", "divisor");
            put_range(alloc, "value", *divisor, object);
        }
        Wrong::Index(name, index, low, high) => {
            object.text("kind", "index");
            object.text("name", name.as_str());
            put_range(alloc, "value", *index, object);
            put_numbers(alloc, "array", *low, *high, object);
        }
        Wrong::Leaves(name, value, row) => {
            object.text("kind", "leaves-range");
            object.text("name", name.as_str());
            put_range(alloc, "value", *value, object);
            put_range(alloc, "row", *row, object);
        }
    }
}

// What a term is there for.
fn put_cause(cause: &Cause, object: &mut Object) {
    match cause {
        Cause::Own => object.text("for", "event-itself"),
        Cause::Dispatch => object.text("for", "dispatch"),
        Cause::Crossing => object.text("for", "transition"),
        Cause::Algorithm(name) => {
            object.text("for", "algorithm");
            object.text("name", name.as_str());
        }
        Cause::State(path) => {
            object.text("for", "state");
            object.text("path", path.as_str());
        }
        Cause::Event(path) => {
            object.text("for", "event");
            object.text("path", path.as_str());
        }
        Cause::Channel(number) => {
            object.text("for", "channel");
            object.number("channel", u64::from(*number));
        }
        Cause::Delivery(times, path) => {
            object.text("for", "delivery");
            object.number("times", u64::from(*times));
            object.text("path", path.as_str());
        }
    }
}

// The terms of a sum.
fn term_list(alloc: Global, terms: &[Term]) -> List {
    let mut list = List::new(alloc);
    for term in terms {
        let mut object = Object::new(alloc);
        object.number("amount", term.amount);
        put_cause(&term.cause, &mut object);
        list.object(object);
    }
    list
}

// A row that says less than it needs.
fn put_sum(alloc: Global, sum: &Sum<'_>, object: &mut Object) {
    object.text("kind", "sum");
    object.text("row", sum.row);
    put_of(sum.of, object);
    object.number("says", sum.says);
    object.number("needs", sum.needs);
    object.text("unit", sum.unit);
    object.list("terms", term_list(alloc, &sum.terms));
}

/// What an arrival comes to.
pub fn kind_name(kind: ArrivalKind) -> &'static str {
    match kind {
        ArrivalKind::Input => "input",
        ArrivalKind::Subscribe => "subscribe",
        ArrivalKind::Timer => "timer",
        ArrivalKind::Begin => "begin",
    }
}

// What arrivals take of a queue.
fn arrival_list(alloc: Global, arrivals: &[Arrival]) -> List {
    let mut list = List::new(alloc);
    for arrival in arrivals {
        let mut object = Object::new(alloc);
        object.text("path", arrival.path.as_str());
        object.text("kind", kind_name(arrival.kind));
        object.number("places", arrival.places);
        list.object(object);
    }
    list
}

// A queue that is not deep enough.
fn put_queue(alloc: Global, queue: &Queue<'_>, object: &mut Object) {
    object.text("kind", "queue");
    object.text("path", queue.path);
    object.number("depth", queue.depth);
    object.list("arrivals", arrival_list(alloc, &queue.arrivals));
}

// An arrival that becomes more events than a queue can hold, and what follows it.
fn put_flood(alloc: Global, flood: &Flood, object: &mut Object) {
    object.text("kind", "flood");
    let mut list = List::new(alloc);
    for link in &flood.chain {
        let mut event = Object::new(alloc);
        event.text("path", link.path.as_str());
        event.number("places", link.places);
        list.object(event);
    }
    object.list("chain", list);
}

// A row RANGE beside what its variable begins with.
fn put_start(alloc: Global, start: &RangeStart<'_>, object: &mut Object) {
    object.text("kind", "start");
    object.text("path", start.path);
    put_range(alloc, "row", start.row, object);
    put_numbers(alloc, "type", start.lowest, start.highest, object);
    put_range(alloc, "first", start.first, object);
}

// A row RANGE beside what is connected to its input.
fn put_link(alloc: Global, link: &RangeLink<'_>, object: &mut Object) {
    object.text("kind", "link");
    object.text("path", link.path);
    put_range(alloc, "row", link.row, object);
    if let Some(source) = link.source {
        let mut from = Object::new(alloc);
        from.text("path", source.path);
        from.text("output", source.port);
        put_range(alloc, "row", source.row, &mut from);
        object.object("source", from);
    }
}

// A row that is missing, with its numbers where they are known.
fn put_missing(alloc: Global, missing: &Missing<'_>, object: &mut Object) {
    object.text("kind", "missing-row");
    object.text("row", missing.row);
    put_of(missing.of, object);
    match missing.numbers {
        Numbers::Amount(Some(amount)) => {
            object.number("steps", amount.steps);
            object.number("places", amount.places);
        }
        Numbers::Number(Some(number)) => object.number("number", number),
        Numbers::Range(Some(range)) => put_range(alloc, "range", range, object),
        Numbers::Amount(None) | Numbers::Number(None) | Numbers::Range(None) => {}
    }
}

/// What was found, if something was.
pub fn finding_object(asked: Asked<'_>, diagnosis: &Diagnosis<'_>) -> Option<Object> {
    let alloc = asked.alloc;
    let mut object = Object::new(alloc);
    match &diagnosis.finding {
        Finding::Nothing => return None,
        Finding::Advice(advised) => {
            object.text("kind", "sentences");
            object.list("sentences", sentences(alloc, advised.said.as_str()));
        }
        Finding::Swapped => object.text("kind", "swapped-files"),
        Finding::Wrong(fault) => put_fault(alloc, fault, &mut object),
        Finding::Sum(sum) => put_sum(alloc, sum, &mut object),
        Finding::Queue(queue) => put_queue(alloc, queue, &mut object),
        Finding::Start(start) => put_start(alloc, start, &mut object),
        Finding::Link(link) => put_link(alloc, link, &mut object),
        Finding::Missing(missing) => put_missing(alloc, missing, &mut object),
        Finding::Flood(flood) => put_flood(alloc, flood, &mut object),
        Finding::Walk(steps) => {
            object.text("kind", "walk");
            object.list("steps", walk_list(asked, diagnosis, steps));
        }
    }
    Some(object)
}
