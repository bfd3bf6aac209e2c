//! The bucket of a peer.

ghost use Rattle.std.specs.Prelude.{◌≡◌};
ghost use Rattle.fb_pace.specs.Bucket as book;
ghost use Rattle.fb_pace.specs.Bucket.{passes};

use crate::rate::Rate;

/// The bucket of a peer: its rate, and the nanosecond at which its next datagram is due.
#[derive(Clone, Copy)]
pub struct Bucket {
    pub rate: Rate,
    pub due: u128,
}

impl Bucket {
    /// The bucket of a peer that has sent nothing yet.
    pub fn new(rate: Rate) -> Bucket
        ensures { result ≡ record { rate = rate; due = 0 } }
    {
        Bucket { rate, due: 0 }
    }

    /// Whether a datagram passes at this nanosecond: it is due, or so nearly that the burst allows it. The next one is due an interval after this one was, or
    /// after now, whichever is later. One that does not pass leaves the bucket as it is.
    pub fn passes(&mut self, now: u64) -> bool
        ensures answer { result ≡ passes self.old now }
        ensures after { self.new ≡ book.after self.old now }
    {
        let now = u128::from(now);
        if self.due > now + self.rate.leeway() {
            return false;
        }
        self.due = self.due.max(now) + u128::from(self.rate.interval);
        true
    }
}
