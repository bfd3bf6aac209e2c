//! Who is told why a line was denied, or is bad, and which roots are asked for.

use crate::line::Misread;
use crate::playing::Missing;
use fb_device::{Answer, Denied};
use fb_world_course::WorldEvent;

/// Who is told why a line was denied, or is bad: what the answer says by a number alone; and of which roots a line asks.
/// Nothing is promised of what it does, and no answer depends on it.
pub trait Witness {
    /// The event of the line of this number was denied, before its answer is written.
    fn denied(&mut self, number: usize, event: &WorldEvent, why: &Denied);

    /// The line of this number is no command.
    fn misread(&mut self, number: usize, line: &str, why: Misread);

    /// The line of this number names what is not there.
    fn missing(&mut self, number: usize, what: Missing<'_>);

    /// A line asks for the steps of this root, which was opened.
    fn asked(&mut self, root: u64);
}

/// Tells a witness of an answer, if it is a denial.
pub fn hear<V: Witness>(number: usize, event: &WorldEvent, answer: &Answer, witness: &mut V) {
    if let Answer::Admitted(Err(why)) = answer {
        witness.denied(number, event, why);
    }
}

/// Tells a witness that an event is unknown: its datagram is.
pub fn hear_unknown<V: Witness>(number: usize, event: &WorldEvent, witness: &mut V) {
    if let WorldEvent::Deliver(datagram, _) = event {
        witness.missing(number, Missing::Datagram(*datagram));
    }
}
