//! Room: book. How long the text of a certificate is at least: as long as the rows that its system must have (`fitting_texts_are_long`).
//! Functions have empty bodies: nothing runs.
#![tactic(auto)]

ghost use Rattle.std.specs.Prelude.{ℕ, ◌≤◌, List, length};
ghost use Rattle.fb_model.specs.Declarations.{BlockTree, SourceTree};
ghost use Rattle.fb_model.specs.NetworkTyping.{ElaboratesWith};
ghost use Rattle.fb_model.specs.System.{System};
ghost use Rattle.fb_model.specs.Certificates.{Certificate, Fits, given};
ghost use Rattle.fb_model.specs.CertificateText.{Spells};
ghost use Rattle.fb_model_lengths.specs.Lengths.{all_length, least_length};

/// A text has at least the characters of the rows of its certificate.
pub fn texts_are_as_long()
    ensures { (text : List ℕ) (cert : Certificate) → Spells text cert → all_length (λ kind. given kind cert) ≤ length text }
{}

/// A text of a certificate that fits a well typed system is as long as the rows that the system must have at least.
pub fn fitting_texts_are_long()
    ensures { (library : List BlockTree) (source : SourceTree) (system : System) (text : List ℕ) (cert : Certificate) → ElaboratesWith library source system → Fits system cert → Spells text cert → least_length cert.repeats system ≤ length text }
{}
