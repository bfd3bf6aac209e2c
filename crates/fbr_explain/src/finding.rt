//! What is needed and what is there, told to people.

use crate::flood::{put_flood, tell_flood};
use crate::walk::{put_walk, tell_walk};
use fb_ranges::Interval;
use fbr_diagnosis::Finding;
use fbr_faults::{tell_fault, tell_numbers};
use fbr_needs::{
    Arrival, Cause, Counts, Missing, Numbers, Of, Queue, RangeLink, RangeStart, Sum, Term,
};
use fbr_places::Writing;
use std::fmt::Display;

const SWAPPED: &str =
    "this is the text of an application: the certificate comes second, `fbr explain APP CERT`";

// Writes what a row is of.
fn put_of(of: Of<'_>, writing: &mut Writing) {
    match of {
        Of::Path(path) => writing.put(path),
        Of::Channel(number) => writing.show(&number),
    }
}

// Writes a kind of row, or of what has a name, and the name.
fn put_row(kind: &str, name: &str, writing: &mut Writing) {
    writing.put(kind);
    writing.put(" ");
    writing.put(name);
}

// Writes what a row says and what it needs.
fn put_sum(sum: &Sum<'_>, writing: &mut Writing) {
    writing.put(sum.row);
    writing.put(" ");
    put_of(sum.of, writing);
    writing.put(" says ");
    writing.show(&sum.says);
    writing.put(" ");
    writing.put(sum.unit);
    writing.put(", and needs ");
    writing.show(&sum.needs);
}

// Writes so many deliveries to the SUBSCRIBE whose arrival has this path.
fn put_delivery(times: u8, path: &str, writing: &mut Writing) {
    if times == 1 {
        put_row("one delivery: FAR", path, writing);
        return;
    }
    writing.show(&times);
    put_row(" deliveries, each FAR", path, writing);
}

// The kinds of row that states and event inputs have, where so many steps are counted.
fn kinds_of(sum: &Sum<'_>) -> (&'static str, &'static str) {
    if sum.is_far {
        ("FARSTATE", "FAR")
    } else {
        ("CHARGE", "WEIGHT")
    }
}

// Writes what a term is there for.
fn put_cause(kinds: (&str, &str), cause: &Cause, writing: &mut Writing) {
    match cause {
        Cause::Own => writing.put("the event itself"),
        Cause::Dispatch => writing.put("the dispatch of the event"),
        Cause::Crossing => writing.put("the crossing of the transition"),
        Cause::Algorithm(name) => put_row("algorithm", name.as_str(), writing),
        Cause::State(path) => put_row(kinds.0, path.as_str(), writing),
        Cause::Event(path) => put_row(kinds.1, path.as_str(), writing),
        Cause::Channel(number) => {
            writing.put("CHANNEL ");
            writing.show(number);
        }
        Cause::Delivery(times, path) => put_delivery(*times, path.as_str(), writing),
    }
}

// Writes the terms of a sum, one a line.
fn tell_terms(kinds: (&str, &str), terms: &[Term], writing: &mut Writing) {
    for term in terms {
        writing.put("    ");
        writing.show(&term.amount);
        writing.put(" for ");
        put_cause(kinds, &term.cause, writing);
        writing.put("\n");
    }
}

// Writes what a queue says.
fn put_queue(queue: &Queue<'_>, writing: &mut Writing) {
    writing.put("DEPTH ");
    writing.put(queue.path);
    writing.put(" says ");
    writing.show(&queue.depth);
    writing.put(", and has to hold each of these, and all BEGIN together");
}

// Writes what arrivals take, one a line, and below that what all BEGIN take.
fn tell_arrivals(arrivals: &[Arrival], writing: &mut Writing) {
    let mut begins: u64 = 0;
    for arrival in arrivals {
        writing.put("    ");
        writing.show(&arrival.places);
        writing.put(" places for ");
        writing.put(arrival.path.as_str());
        writing.put("\n");
        if arrival.is_begin() {
            begins = begins.saturating_add(arrival.places);
        }
    }
    if begins > 0 {
        writing.put("    ");
        writing.show(&begins);
        writing.put(" places for all BEGIN together\n");
    }
}

// Writes the row of a variable.
fn put_range(path: &str, row: Interval, writing: &mut Writing) {
    put_row("RANGE", path, writing);
    writing.put(" says ");
    tell_numbers(row.low, row.high, writing);
}

// Writes the row of a variable beside what it begins with.
fn put_start(start: &RangeStart<'_>, writing: &mut Writing) {
    put_range(start.path, start.row, writing);
    writing.put("; its type has ");
    writing.show(&start.lowest);
    writing.put(" to ");
    writing.show(&start.highest);
    writing.put(", and it begins with ");
    tell_numbers(start.first.low, start.first.high, writing);
}

// Writes the row of a data input beside what is connected to it.
fn put_link(link: &RangeLink<'_>, writing: &mut Writing) {
    put_range(link.path, link.row, writing);
    if let Some(source) = link.source {
        writing.put("; ");
        writing.put(source.path);
        writing.put(".");
        writing.put(source.port);
        writing.put(", which is connected to it, may be ");
        tell_numbers(source.row.low, source.row.high, writing);
    }
}

// Writes two numbers.
fn put_two<N: Display + Drop>(one: N, two: N, writing: &mut Writing) {
    writing.put(" ");
    writing.show(&one);
    writing.put(" ");
    writing.show(&two);
}

// Writes the numbers of a row, or what they mean where they are not known.
fn put_numbers(numbers: Numbers, writing: &mut Writing) {
    match numbers {
        Numbers::Amount(Some(amount)) => put_two(amount.steps, amount.places, writing),
        Numbers::Amount(None) => writing.put(" STEPS PLACES"),
        Numbers::Number(Some(number)) => {
            writing.put(" ");
            writing.show(&number);
        }
        Numbers::Number(None) => writing.put(" NUMBER"),
        Numbers::Range(Some(range)) => put_two(range.low, range.high, writing),
        Numbers::Range(None) => writing.put(" LOWEST HIGHEST"),
    }
}

// Writes a row that is missing.
fn put_missing(missing: &Missing<'_>, writing: &mut Writing) {
    writing.put("The row to add: ");
    writing.put(missing.row);
    writing.put(" ");
    put_of(missing.of, writing);
    put_numbers(missing.numbers, writing);
}

// Writes how many rows are missing and how many are too many.
fn put_counts(counts: Counts, writing: &mut Writing) {
    writing.put("rows that are missing: ");
    writing.show(&counts.missing);
    writing.put(", rows that are too many: ");
    writing.show(&counts.many);
    writing.put("; find them anew by `fbr bound APP > CERT`");
}

// The first line of sentences.
fn first_of(said: &str) -> &str {
    let line = match said.split_once('\n') {
        Some((line, _)) => line,
        None => said,
    };
    line.strip_suffix(":").unwrap_or(line)
}

/// Writes in one line what was found, if it has a line of its own beside what the number says; and whether it has.
pub fn tell_found(finding: &Finding<'_>, counts: Option<Counts>, writing: &mut Writing) -> bool {
    match finding {
        Finding::Nothing => match counts {
            Some(counts) => put_counts(counts, writing),
            None => return false,
        },
        Finding::Advice(advised) => writing.put(first_of(advised.said.as_str())),
        Finding::Swapped => writing.put(SWAPPED),
        Finding::Wrong(fault) => tell_fault(fault, writing),
        Finding::Sum(sum) => put_sum(sum, writing),
        Finding::Start(start) => put_start(start, writing),
        Finding::Link(link) => put_link(link, writing),
        Finding::Missing(missing) => put_missing(missing, writing),
        Finding::Walk(steps) => return put_walk(steps, writing),
        Finding::Flood(flood) => return put_flood(flood, writing),
        Finding::Queue(_) => return false,
    }
    true
}

/// Writes in one line what was found, and what to do about this mistake where that is known; and whether there is such a line.
pub fn tell_lead(finding: &Finding<'_>, counts: Option<Counts>, writing: &mut Writing) -> bool {
    if !tell_found(finding, counts, writing) {
        return false;
    }
    match finding {
        Finding::Advice(advised) if !advised.is_plain && !advised.remedy.is_empty() => {
            writing.put(": ");
            writing.put(advised.remedy.as_str());
        }
        _ => {}
    }
    true
}

// Writes the rest of a sum or of a queue behind its first line.
fn tell_rest(finding: &Finding<'_>, writing: &mut Writing) {
    match finding {
        Finding::Sum(sum) => {
            writing.put(":\n");
            tell_terms(kinds_of(sum), &sum.terms, writing);
        }
        Finding::Queue(queue) => {
            put_queue(queue, writing);
            writing.put(":\n");
            tell_arrivals(&queue.arrivals, writing);
        }
        _ => writing.put("\n"),
    }
}

/// Writes what was found, and behind it how many rows are missing and how many too many.
pub fn tell_finding(finding: &Finding<'_>, counts: Option<Counts>, writing: &mut Writing) {
    match finding {
        Finding::Nothing => {}
        Finding::Advice(advised) => writing.put(advised.said.as_str()),
        Finding::Walk(steps) => tell_walk(steps, writing),
        Finding::Flood(flood) => tell_flood(flood, writing),
        _ => {
            tell_found(finding, None, writing);
            tell_rest(finding, writing);
        }
    }
    if let Some(counts) = counts {
        put_counts(counts, writing);
        writing.put("\n");
    }
}
