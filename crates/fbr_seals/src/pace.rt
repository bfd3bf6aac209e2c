//! How often peers may send, by the clock.

ghost use Rattle.std.specs.Prelude.{◌≡◌, ◌≤◌};

use fb_pace::Buckets;
use fb_seal::Gate;
use std::rt::Clock;
use std::time::Instant;

/// The buckets of peers, by the clock: the nanoseconds since the first datagram. They do not go back: where the clock cannot be read, the last moment stands.
#[derive(Drop)]
pub struct Pace<'r, R> {
    rt: &'r R,
    start: Option<Instant>,
    last: u64,
    buckets: Buckets,
}

impl<'r, R: Clock> Pace<'r, R> {
    /// These buckets, by this clock.
    pub fn new(rt: &'r R, buckets: Buckets) -> Pace<'r, R>
        ensures { (result.buckets ≡ buckets) × (result.last ≡ 0) }
    {
        Pace {
            rt,
            start: None,
            last: 0,
            buckets,
        }
    }

    // The nanoseconds since the first call, and no fewer than at the call before.
    fn moment(&mut self) -> u64
        ensures later { self.old.last ≤ result }
        ensures last { self.new.last ≡ result }
        ensures kept { self.new.buckets ≡ self.old.buckets }
    {
        match self.start {
            None => self.start = Instant::now(self.rt).ok(),
            Some(start) => {
                if let Ok(elapsed) = start.elapsed(self.rt) {
                    let now = u64::try_from(elapsed.as_nanos()).unwrap_or(u64::MAX);
                    self.last = self.last.max(now);
                }
            }
        }
        self.last
    }
}

impl<'r, R: Clock> Gate for Pace<'r, R> {
    ghost use Rattle.fb_pace.specs.Pacing.{Asks};
    ghost use Rattle.fbr_seals.specs.Paces.{pacing_of};

    ghost lets = { λ p number answer q. Asks (pacing_of p) number answer (pacing_of q) };

    fn passes(&mut self, sender: u16) -> bool {
        let now = self.moment();
        self.buckets.passes(sender, now)
    }
}
