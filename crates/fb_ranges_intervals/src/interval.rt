//! Ranges of numbers.

ghost use Rattle.std.specs.Prelude.{◌≤ℤ◌, IfSome, IfNone, ◌≡◌, ◌<ℤ◌};

/// The numbers from `low` to `high`, of which there is at least one.
#[derive(Clone, Copy)]
pub struct Interval {
    pub low: i64,
    pub high: i64,
    pub ghost ordered: { low ≤ℤ high },
}

impl Interval {
    /// The numbers from `low` to `high`, if there are any.
    pub fn new(low: i64, high: i64) -> Option<Interval>
        ensures some { IfSome result (λ r. (r.low ≡ low) × (r.high ≡ high)) }
        ensures none { IfNone result (high <ℤ low) }
    {
        if low <= high {
            Some(Interval { low, high })
        } else {
            None
        }
    }
}

/// The numbers from `low` to `high`, beyond those of any type.
#[derive(Clone, Copy)]
pub(crate) struct Wide {
    pub low: i128,
    pub high: i128,
    pub ghost ordered: { low ≤ℤ high },
}
