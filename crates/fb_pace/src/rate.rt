//! How often a peer may send.

ghost use Rattle.std.specs.Prelude.{◌≡◌, ◌<◌, ◌^◌};
ghost use Rattle.fb_pace.specs.Bucket.{leeway};

/// How often a peer may send: a datagram each so many nanoseconds, and so many at once after a pause. A burst of none is one of a single datagram.
#[derive(Clone, Copy)]
pub struct Rate {
    pub interval: u64,
    pub burst: u16,
}

impl Rate {
    // By how many nanoseconds a datagram may come before it is due.
    pub(crate) fn leeway(&self) -> u128
        ensures value { result ≡ leeway self.now }
        ensures bound { result < 2 ^ 80 }
    {
        u128::from(self.burst.saturating_sub(1)) * u128::from(self.interval)
    }
}
