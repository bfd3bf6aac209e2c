//! Room: book. Laws of what is spelled: certificates that texts spell, and messages that bytes spell.
//! No row of a certificate that a text spells says more than a row can (`rows_are_small`); bytes spell one message at most (`bytes_spell_one_message`).
//! Functions have empty bodies: nothing runs.
#![tactic(auto)]

ghost use Rattle.std.specs.Prelude.{ℕ, List, [], ◌++◌, ◌≡◌};
ghost use Rattle.fb_model.specs.Certificates.{Certificate};
ghost use Rattle.fb_model.specs.CertificateText as certificate;
ghost use Rattle.fb_model.specs.Messages.{Message, Spells};
ghost use Rattle.fb_model_texts.specs.Small.{AreSmall};

/// Bytes spell one message at most, and those of a message begin those of no other.
pub fn bytes_spell_one_message()
    ensures { (bytes more : List ℕ) (m n : Message) → Spells m bytes → Spells n (bytes ++ more) → (m ≡ n) × (more ≡ []) }
{}

/// In a certificate that a text spells no row of states, events and channels says more than a row can.
pub fn rows_are_small()
    ensures { (text : List ℕ) (cert : Certificate) → certificate.Spells text cert → AreSmall cert }
{}
