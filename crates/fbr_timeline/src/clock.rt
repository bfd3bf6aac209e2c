//! The time of a dump, in microseconds: a millisecond of the device's clock has a thousand, and each look within it one of its own.

/// The last microsecond of a millisecond, which all looks from the thousandth on share.
const LAST: u64 = 999;

/// Where the time of a dump stands.
#[derive(Clone, Copy)]
pub struct Clock {
    // The milliseconds of the runs before this one.
    before: u64,
    // The milliseconds of this run.
    now: u64,
    // How many looks there were in this millisecond.
    order: u64,
    has_begun: bool,
}

impl Clock {
    /// The beginning of time.
    pub fn new() -> Clock {
        Clock {
            before: 0,
            now: 0,
            order: 0,
            has_begun: false,
        }
    }

    /// Another look, at a moment in milliseconds. Time never goes back.
    pub fn step(&mut self, now: u64) {
        if now > self.now {
            self.now = now;
            self.order = 0;
        } else if self.has_begun {
            self.order = self.order.saturating_add(1).min(LAST);
        }
        self.has_begun = true;
    }

    /// Another run begins, in the millisecond behind the last one.
    pub fn restart(&mut self) {
        self.before = self.before.saturating_add(self.now).saturating_add(1);
        self.now = 0;
        self.order = 0;
        self.has_begun = false;
    }

    /// The time in microseconds.
    pub fn stamp(&self) -> u64 {
        self.before
            .saturating_add(self.now)
            .saturating_mul(1000)
            .saturating_add(self.order)
    }
}
