//! Where counters are written down.

ghost use Rattle.std.specs.Prelude.{Bool};
ghost use Rattle.fb_seal.specs.Ledger.{Note, Permits, Reserves};

/// What writes down which counters may be used, before they are: after a restart none of these is used again.
pub trait Ledger {
    /// What it does when something is to be written down, and whether that was done.
    ghost writes: { Self → Note → Bool → Self → Type 0 };

    /// Writes down that the own counters below this may be used, and answers whether that was done.
    fn reserve(&mut self, upto: u64) -> bool
        ensures { writes self.old (Reserves upto) result self.new };

    /// The same of the counters of the peer at a place.
    fn allow(&mut self, place: usize, upto: u64) -> bool
        ensures { writes self.old (Permits place upto) result self.new };
}
