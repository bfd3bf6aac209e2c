//! What a device is asked, and what it answers.

use fb_device_arrivals::Denied;
use fb_device_dispatch::Dispatched;

/// The arrival that opened a cause: its block and event by number, the steps of its WEIGHT row, and those of its FAR row where the certificate has REPEATS.
#[derive(Clone, Copy)]
pub struct Opening {
    pub block: u16,
    pub event: u16,
    pub weight: u64,
    pub far: Option<u64>,
}

/// A call of a device.
#[derive(Drop)]
pub enum Step {
    /// An offer at the INPUT of a number, with its values.
    Offer(u16, Vec<i64>),
    /// Bytes that come in.
    Deliver(Vec<u8>),
    /// A moment of the clock, in milliseconds.
    Tick(u64),
    /// A dispatch of the resource of a number.
    Dispatch(u16),
}

/// What a call answered.
#[derive(Drop)]
pub enum Answer {
    /// The cause that an offer or a datagram opened, or why it was refused.
    Admitted(Result<u64, Denied>),
    /// How many timers a tick has fired.
    Fired(u32),
    Served(Dispatched),
}
