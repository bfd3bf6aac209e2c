//! Datagrams that were sent.

ghost use Rattle.std.specs.Prelude.{◌≡◌, ◌+◌, ◌<◌, length, min, set, replicate, slice_index_or};

use fb_wire::Message;

// No count of admissions is greater.
const MOST_ADMISSIONS: u16 = 256;

/// A datagram that was sent: its message, its root, and how often each device has admitted it. A count stops at 256, and a system
/// has at most 16 devices.
#[derive(Drop)]
pub struct Sent {
    pub message: Message,
    pub root: u64,
    pub admissions: [u16; 16],
}

// The same message once more.
fn copy(message: &Message) -> Message
    ensures { result ≡ message.now }
{
    let mut copy = match message.stamp() {
        Some(stamp) => Message::stamped(message.number(), stamp),
        None => Message::new(message.purpose(), message.number()),
    };
    let values = message.values();
    for typed in values {
        let _ = copy.add(*typed);
    }
    copy
}

impl Sent {
    /// A message of a root, which no device has admitted yet.
    pub fn new(message: &Message, root: u64) -> Sent
        ensures { result ≡ record { message = message.now; root = root; admissions = replicate 16 0 } }
    {
        Sent {
            message: copy(message),
            root,
            admissions: [0; 16],
        }
    }

    /// The device of a number has admitted it once more.
    pub fn admit(&mut self, device: usize)
        requires { device < 16 }
        ensures whole { length self.old.admissions ≡ 16 }
        ensures message { self.new.message ≡ self.old.message }
        ensures root { self.new.root ≡ self.old.root }
        ensures admissions { self.new.admissions ≡ set self.old.admissions device (min (slice_index_or self.old.admissions device 0 + 1) 256) }
    {
        let count = self.admissions[device].saturating_add(1);
        self.admissions[device] = count.min(MOST_ADMISSIONS);
    }
}
