//! Walks, told place by place.

use fb_faults::Place;
use fbr_needs::{Step, Way};
use fbr_places::Writing;

// So many places of a walk are told in one line.
const MOST_TOLD: usize = 8;

// Writes a line of two texts.
fn put_line(one: &str, two: &str, writing: &mut Writing) {
    writing.put(one);
    writing.put(two);
    writing.put("\n");
}

// Writes a line of a text and the number of a channel.
fn put_channel(text: &str, number: u16, writing: &mut Writing) {
    writing.put(text);
    writing.show(&number);
    writing.put("\n");
}

// Writes where a text says how a place leads to the next one, if it does, and ends the line.
fn end_way(step: &Step<'_>, writing: &mut Writing) {
    if let Some(at) = &step.at {
        writing.put(" (");
        at.put(writing);
        writing.put(")");
    }
    writing.put("\n");
}

// Writes how a place leads to the next one of a walk.
fn tell_way(step: &Step<'_>, way: Way<'_>, writing: &mut Writing) {
    match way {
        Way::Emits(output, to) => {
            writing.put("        it emits ");
            writing.put(output);
            writing.put(", which is connected to ");
            writing.put(to);
        }
        Way::Free(state) => {
            writing.put("        a transition without an event leads to ");
            writing.put(state);
        }
        Way::Opens(state) => {
            writing.put("        a transition that it opens leads to ");
            writing.put(state);
        }
        Way::Arrives(event) => {
            writing.put("        its datagrams come to ");
            writing.put(event);
        }
        Way::Sends(channel) => {
            writing.put("        it sends a datagram of channel ");
            writing.show(&channel);
        }
    }
    end_way(step, writing);
}

// Writes a place.
fn tell_place(place: &Place, writing: &mut Writing) {
    match place {
        Place::State(path) => put_line("    state ", path.as_str(), writing),
        Place::Event(path) => put_line("    event ", path.as_str(), writing),
        Place::Channel(number) => put_channel("    channel ", *number, writing),
    }
}

/// Writes the places of a walk, one a line, and below each how it leads to the next.
pub fn tell_walk(steps: &[Step<'_>], writing: &mut Writing) {
    for step in steps {
        tell_place(step.place, writing);
        if let Some(way) = step.way {
            tell_way(step, way, writing);
        }
    }
}

// What a text has where a place leads to the next one.
fn sign_of(way: Way<'_>) -> &'static str {
    match way {
        Way::Emits(_, _) => "the connection at ",
        Way::Free(_) | Way::Opens(_) => "the transition at ",
        Way::Arrives(_) => "the SUBSCRIBE at ",
        Way::Sends(_) => "the PUBLISH at ",
    }
}

// How many places have their way in the text.
fn located(steps: &[Step<'_>]) -> usize {
    let mut count: usize = 0;
    for step in steps {
        if step.at.is_some() {
            count = count.saturating_add(1);
        }
    }
    count
}

// Writes what stands between the ways of a walk, of which so many were told.
fn put_between(told: usize, count: usize, writing: &mut Writing) {
    if told == 0 {
        return;
    }
    writing.put(if told.saturating_add(1) == count {
        " and "
    } else {
        ", "
    });
}

/// Writes in one line where the text leads around a walk: the first of its connections and transitions; and whether there is one.
pub fn put_walk(steps: &[Step<'_>], writing: &mut Writing) -> bool {
    let count = located(steps);
    if count == 0 {
        return false;
    }
    writing.put(
        "an event may go round these places again (the order of states is not looked at), by ",
    );
    let mut told: usize = 0;
    for step in steps {
        if let (Some(way), Some(at)) = (step.way, &step.at) {
            if told < MOST_TOLD {
                put_between(told, count, writing);
                writing.put(sign_of(way));
                writing.show(&at.spot.line);
                writing.put(":");
                writing.show(&at.spot.column);
                told = told.saturating_add(1);
            }
        }
    }
    if count > told {
        writing.put(", ..");
    }
    true
}
