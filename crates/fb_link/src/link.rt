//! Links.

ghost use Rattle.std.specs.Prelude.{◌≡◌, ◌+◌, ℕ, length, if◌then◌else◌};
ghost use Rattle.fb_link.specs.Link.{receipt, FitsRoom, failures_of};
ghost use Rattle.fb_words.specs.Links.{LinkCall, Sent};
ghost use Rattle.fb_link.specs.declared.link.Received.{Received};
ghost use Rattle.fb_link.specs.declared.link.Received.TheVariants.{Nothing};

use std::time::Duration;

/// What a receive answers.
#[derive(Clone, Copy)]
pub enum Received {
    /// No datagram is there.
    Nothing,
    /// A datagram stands in the first bytes of the buffer, so many of them.
    Got(usize),
    /// The link failed.
    Failed,
}

/// What joins a device to others. Each call that fails is counted, and no other; once 2^64 - 1 have failed, calls do nothing.
///
/// A link tells by `steps` what a call does; one that leaves them out tells its count of failures alone.
pub trait Link {
    /// How many calls have failed.
    ghost count: { Self → ℕ };

    /// What a call does. A link that tells nothing allows all.
    ghost steps: { Self → LinkCall → Self → Type 0 } = { λ _ _ _. Unit {0} };

    /// Gives the bytes to the link once, and answers whether it took them.
    fn send(&mut self, bytes: &[u8]) -> bool
        ensures told { steps self.old (Sent bytes.now result) self.new }
        ensures counted { count self.new ≡ count self.old + (if result then 0 else 1) }
        ensures spent { count self.old ≡ 18446744073709551615 → self.new ≡ self.old };

    /// Takes the next datagram into the buffer. What does not fit into it is lost.
    fn receive(&mut self, buffer: &mut [u8]) -> Received
        ensures within { FitsRoom result (length buffer.new) }
        ensures told { steps self.old (receipt result buffer.new (length buffer.old)) self.new }
        ensures counted { count self.new ≡ count self.old + failures_of result }
        ensures spent { count self.old ≡ 18446744073709551615 → (self.new ≡ self.old) × (result ≡ Nothing) };

    /// How many calls have failed.
    fn failures(&self) -> u64
        ensures { result ≡ count self.now };

    /// How many datagrams of strangers were dropped, as far as a link counts them.
    fn dropped(&self) -> u64 {
        0
    }

    /// Waits until a datagram may be there, at most so long. A link that cannot wait returns at once.
    fn wait(&self, _most: Duration) {}
}
