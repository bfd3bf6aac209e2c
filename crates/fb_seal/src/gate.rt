//! How often peers may send.

ghost use Rattle.std.specs.Prelude.{◌≡◌, ℕ, Bool, true};

/// What is asked whether a peer may send now, once what it sent is known to be its own, and new.
pub trait Gate {
    /// What it does when it is asked about a peer, and what it answers.
    ghost lets: { Self → ℕ → Bool → Self → Type 0 };

    /// Whether a datagram of the peer with this number passes.
    fn passes(&mut self, sender: u16) -> bool
        ensures { lets self.old sender result self.new };
}

/// A gate through which all pass.
#[derive(Clone, Copy)]
pub struct Unlimited;

impl Gate for Unlimited {
    ghost lets = { λ _ _ passes _. passes ≡ true };

    fn passes(&mut self, _sender: u16) -> bool {
        true
    }
}
