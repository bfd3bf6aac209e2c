//! Why an offer or a datagram is refused.

ghost use Rattle.std.specs.Prelude.{◌≡◌};

use fb_wire::WireFault;

/// Why an offer or a datagram is refused.
#[derive(Clone, Copy)]
pub enum Denied {
    /// The device has no INPUT of this number. Code 50.
    UnknownInput,
    /// The offer has another number of values than the INPUT. Code 51.
    BadCount,
    /// The value of this place, counted from 1, does not fit its type. Code 52.
    BadValue(u16),
    /// The arrival needs so many places, and so many are free. Code 53.
    NoCredit { needs: u64, free: u64 },
    /// No cause number is left. Code 54.
    Spent,
    /// The bytes are no message. Code 55.
    Wire(WireFault),
    /// The device has no SUBSCRIBE of this channel. Code 56.
    NoSubscriber,
    /// The message has another format than the block takes, or its values are not as many, or of other types. Code 57.
    Shape,
    /// The SUBSCRIBE is closed. Code 58.
    Closed,
    /// The message is not later than the one that the SUBSCRIBE admitted last, which has this stamp. Code 64.
    Stale { boot: u32, sequence: u32 },
}

impl Denied {
    ghost use Rattle.fb_device_arrivals.specs.Answers.{denied_code};

    /// The number of the refusal.
    pub fn code(&self) -> u8
        ensures { result ≡ denied_code self.now }
    {
        match self {
            Denied::UnknownInput => 50,
            Denied::BadCount => 51,
            Denied::BadValue(_) => 52,
            Denied::NoCredit { needs: _, free: _ } => 53,
            Denied::Spent => 54,
            Denied::Wire(_) => 55,
            Denied::NoSubscriber => 56,
            Denied::Shape => 57,
            Denied::Closed => 58,
            Denied::Stale {
                boot: _,
                sequence: _,
            } => 64,
        }
    }
}
