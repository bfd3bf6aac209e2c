//! What a service remembers, where its variables lie, and what it does.

ghost use Rattle.std.specs.Prelude.{◌≡◌, None};

use crate::{Point, Values};
use fb_wire::{Message, Stamp};

/// What a PUBLISH or SUBSCRIBE keeps of stamps, be it open or closed: this project's profile.
#[derive(Clone, Copy)]
pub enum Stamps {
    /// In the first format, nothing.
    Unstamped,
    /// A PUBLISH: the stamp of its next message.
    Upcoming(Stamp),
    /// A PUBLISH that has sent a message with the last sequence number.
    Exhausted,
    /// A SUBSCRIBE: the stamp of the message that was admitted last.
    Latest(Stamp),
}

/// What a service remembers from one dispatch to the next: IEC 61499-1 edition 2, 6.1 and annex A, this project's profile.
#[derive(Clone, Copy)]
pub enum Standing {
    /// A PUBLISH or SUBSCRIBE that is not open.
    Closed(Stamps),
    /// A PUBLISH or SUBSCRIBE that is open.
    Ready(Stamps),
    /// A timer that does not run.
    Quiet,
    /// A timer that is due at this moment.
    Armed(u64),
    /// A timer that was due and has not expired yet.
    Fired,
    /// The others, which remember nothing.
    Plain,
}

/// What a service does outside of its device: IEC 61499-1 edition 2, 6.1, this project's profile.
#[derive(Drop)]
pub enum Effect {
    /// A PUBLISH sends a message to its channel.
    Send(Message),
    /// An OUTPUT of a number writes values.
    Write(u16, Values),
}

/// The slots of a service's variables: QI, QO, DT, SD_1 and so on, RD_1 and so on. A QI, QO or DT that it does not have has the slot behind all, and a list
/// that it does not have is empty.
#[derive(Drop)]
pub struct Ports {
    pub quality_in: usize,
    pub quality_out: usize,
    pub time: usize,
    pub sent: Vec<usize>,
    pub received: Vec<usize>,
}

/// An occurrence of an event: the event's block and number, the values of an arrival, and the moment.
#[derive(Clone, Copy)]
pub struct Occurrence<'a> {
    pub point: Point,
    pub values: &'a [i64],
    pub clock: u64,
}

/// What a dispatch comes to: what the service remembers after it, the number of the event output that it emits, and its effect.
#[derive(Drop)]
pub(crate) struct Response {
    pub(crate) standing: Standing,
    pub(crate) output: Option<u16>,
    pub(crate) effect: Option<Effect>,
}

// A dispatch that emits nothing and has no effect.
pub(crate) fn silent(standing: Standing) -> Response
    ensures { result ≡ record { standing = standing; output = None; effect = None } }
{
    Response {
        standing,
        output: None,
        effect: None,
    }
}
