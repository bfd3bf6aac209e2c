//! From texts to a system and a certificate.

ghost use Rattle.std.specs.Prelude.{◌≡◌, ◌≤◌, ◌<◌, length, IfOk, IfErr, Err, MatchResult};
ghost use Rattle.fb_model.specs.Certificates as book;
ghost use Rattle.fb_model.specs.CertificateText.{Spells, most_characters};
ghost use Rattle.fb_model.specs.Spelling.{text_limit};
ghost use Rattle.fb_model.specs.System.{System};
ghost use Rattle.fb_model.specs.Declarations.{SourceTree};
ghost use Rattle.fb_model.specs.EventBlocks.{Elaborates};
ghost use Rattle.fb_faults.specs.declared.text.TextFault.TheVariants as texts;
ghost use Rattle.fb_faults.specs.declared.certificate.CertFault.TheVariants as certs;
ghost use Rattle.fb_cert.specs.Views.{certificate_of};
ghost use Rattle.fb_model.specs.Sources.{IsSource};
ghost use Rattle.fb_tree.specs.Files.{source_of};
ghost use Rattle.fb_types.specs.Views.{system_of, system_offsets, all_offsets};
ghost use Rattle.fb_verdict.specs.Verdicts.{IsTypedOf};
ghost use Rattle.fb_model.specs.Verdicts.{IsTextFault, IsTypingFault, IsCertificateFault};
ghost use Rattle.fb_faults.specs.declared.refusal.Refusal.TheVariants.{OutOfMemory};
ghost use Rattle.fb_faults.specs.declared.refusal.Refusal.TheVariants as refusals;

use fb_cert::{Certificate, parse_cert};
use fb_faults::Refusal;
use fb_text::{Source, parse};
use fb_types::Typed;
use fb_types_events::resolve;
use std::alloc::Global;

// The system of a source tree.
fn resolved(alloc: Global, source: &Source) -> Result<Typed, Refusal>
    ensures typed { IfOk result (λ t. Elaborates (source_of source.now) (system_of t)) }
    ensures offsets { IfOk result (λ t. system_offsets t.devices.items ≡ all_offsets (source_of source.now).system.devices) }
    ensures refused { IfErr result (IsTypingFault (source_of source.now)) }
    ensures accepts { (system : System) → Elaborates (source_of source.now) system → MatchResult result (λ t. system_of t ≡ system) (λ f. f ≡ OutOfMemory) }
{
    match resolve(alloc, source) {
        Ok(typed) => Ok(typed),
        Err(fault) => Err(Refusal::from(fault)),
    }
}

/// The system of an application's text, whose resources have the offsets of their names.
pub fn read_system(alloc: Global, text: &str) -> Result<Typed, Refusal>
    ensures typed { IfOk result (IsTypedOf text.now) }
    ensures within { IfOk result (λ t. length text.now ≤ text_limit) }
    ensures long { text_limit < length text.now → result ≡ Err (refusals.Text texts.TooLong) }
    ensures refused { IfErr result (IsTextFault text.now) }
    ensures accepts { (source : SourceTree) (system : System) → length text.now ≤ text_limit → IsSource text.now source → Elaborates source system → MatchResult result (λ t. system_of t ≡ system) (λ f. f ≡ OutOfMemory) }
{
    match parse(alloc, text) {
        Ok(source) => {
            let typed = resolved(alloc, &source);
            source.let_go();
            typed
        }
        Err(fault) => Err(Refusal::from(fault)),
    }
}

/// The certificate of a text.
pub fn read_certificate(alloc: Global, text: &str) -> Result<Certificate, Refusal>
    ensures spelled { IfOk result (λ c. Spells text.now (certificate_of c)) }
    ensures within { IfOk result (λ c. length text.now ≤ most_characters) }
    ensures long { most_characters < length text.now → result ≡ Err (refusals.Certificate certs.TooLong) }
    ensures refused { IfErr result (IsCertificateFault text.now) }
    ensures accepts { (certificate : book.Certificate) → length text.now ≤ most_characters → Spells text.now certificate → MatchResult result (λ c. certificate_of c ≡ certificate) (λ f. f ≡ OutOfMemory) }
{
    match parse_cert(alloc, text) {
        Ok(certificate) => Ok(certificate),
        Err(fault) => Err(Refusal::from(fault)),
    }
}
