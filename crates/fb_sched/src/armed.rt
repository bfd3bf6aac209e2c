//! Timers that are armed.

ghost use Rattle.std.specs.Prelude.{◌≡◌};
ghost use Rattle.fb_sched.specs.Order.{is_ahead};

/// A timer that is armed: the moment at which it is due, in milliseconds, and the number of its block in the device.
#[derive(Clone, Copy)]
pub struct Armed {
    pub due: u64,
    pub block: u16,
}

impl Armed {
    /// Whether this timer comes before another: it is due earlier, or at the same moment and its block stands before.
    pub fn is_ahead(&self, other: &Armed) -> bool
        ensures { result ≡ is_ahead self.now other.now }
    {
        self.due < other.due || self.due == other.due && self.block < other.block
    }
}
