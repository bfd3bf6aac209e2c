//! What the book says of datagrams that a link cuts.

ghost use Rattle.std.specs.Prelude.{ℕ, ◌≡◌, ◌≤◌, List, length, take, Some};
ghost use Rattle.fb_model.specs.Fields.{Fault, fault_in};

/// A datagram of 160 bytes and more is no message, and cut at 160 bytes it is at fault in the same way. So a turn, which takes no more of it, denies it as it would be
/// denied whole.
pub fn long_datagrams_are_denied()
    ensures { (bytes : List ℕ) → 160 ≤ length bytes → (fault : Fault) × (fault_in bytes ≡ Some fault) × (fault_in (take 160 bytes) ≡ Some fault) }
{}
