//! A law of datagrams.

ghost use Rattle.std.specs.Prelude.{ℕ, List, ◌≡◌, Some};
ghost use Rattle.fb_model.specs.Messages.{Message, Spells};
ghost use Rattle.fb_model.specs.Fields.{Fault, fault_in};

/// Bytes that are at fault spell no message.
pub fn faulty_bytes_spell_nothing()
    ensures { (bytes : List ℕ) (fault : Fault) (m : Message) → fault_in bytes ≡ Some fault → Spells m bytes → ⊥ }
{}
