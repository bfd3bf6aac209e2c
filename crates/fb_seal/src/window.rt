//! Windows: which counters of a sender are fresh.

ghost use Rattle.std.specs.Prelude.{◌≡◌, ℕ, true, false, List, [], ◌∷◌, ◌&&◌, ◌<◌, ◌≤◌, ◌-◌, nat_lt, if◌then◌else◌};
ghost use Rattle.fb_seal.specs.Window.{Keeps, bit, is_beside, takes};

/// Which counters of a sender were taken: the highest one, and each of the 63 below it by a bit.
#[derive(Clone, Copy)]
pub struct Window {
    highest: u64,
    mask: u64,
}

// A mask whose bits are shifted up by so many, the lowest of which is set then.
fn shifted(mask: u64, by: u64) -> u64
    requires { 0 < by }
    ensures first { bit result 0 ≡ 1 }
    ensures between { (i : ℕ) → 0 < i → i < by → i < 64 → bit result i ≡ 0 }
    ensures others { (i : ℕ) → by ≤ i → i < 64 → bit result i ≡ bit mask (i - by) }
{
    if by < 64 { mask << by | 1 } else { 1 }
}

impl Window {
    /// A window that has taken no counter.
    pub fn new() -> Window
        ensures { Keeps result [] }
    {
        Window {
            highest: 0,
            mask: 0,
        }
    }

    /// A window that takes only counters above this one.
    pub fn above(counter: u64) -> Window
        ensures { (other : ℕ) → takes result other ≡ nat_lt counter other }
    {
        Window {
            highest: counter,
            mask: u64::MAX,
        }
    }

    /// The highest counter that was taken; 0 where none was.
    pub fn highest(&self) -> u64
        ensures { result ≡ self.now.highest }
    {
        self.highest
    }

    /// Whether a counter is fresh: above the highest one, or one of the 63 below it that was not taken.
    pub fn takes(&self, counter: u64) -> bool
        ensures { result ≡ takes self.now counter }
    {
        if counter > self.highest {
            return true;
        }
        let below = self.highest - counter;
        below < 64 && (self.mask >> below) % 2 == 0
    }

    // The window after a fresh counter.
    fn after(&self, counter: u64) -> Window
        requires { takes self.now counter ≡ true }
        ensures { (other : ℕ) → takes result other ≡ is_beside counter other && takes self.now other }
    {
        if counter > self.highest {
            Window {
                highest: counter,
                mask: shifted(self.mask, counter - self.highest),
            }
        } else {
            Window {
                highest: self.highest,
                mask: self.mask | 1 << (self.highest - counter),
            }
        }
    }

    /// Takes a counter if it is fresh, and answers whether it did. One that is not leaves all as it is.
    pub fn take(&mut self, counter: u64) -> bool
        ensures fresh { result ≡ takes self.old counter }
        ensures taken { result ≡ true → (other : ℕ) → takes self.new other ≡ is_beside counter other && takes self.old other }
        ensures refused { result ≡ false → self.new ≡ self.old }
        ensures keeps { (before : List ℕ) → Keeps self.old before → Keeps self.new (if result then counter ∷ before else before) }
    {
        let is_fresh = self.takes(counter);
        if is_fresh {
            *self = self.after(counter);
        }
        is_fresh
    }
}
