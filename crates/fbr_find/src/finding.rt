//! From an application's text to a certificate's text.

ghost use Rattle.std.specs.Prelude.{◌≡◌, ◌≤◌, length, IfOk, MatchResult, string_bytes};
ghost use Rattle.fb_model.specs.Spelling.{text_limit};
ghost use Rattle.fb_model.specs.CertificateText.{Spells};
ghost use Rattle.fb_cert.specs.Views.{rows_of, certificate_of};
ghost use Rattle.fb_cert.specs.Printed.{printed};
ghost use Rattle.fb_verdict.specs.Verdicts.{IsTypedOf};
ghost use Rattle.fbr_files.specs.declared.fault.Fault.TheVariants.{Memory};
ghost use Rattle.fbr_find.specs.Bounding.{IsTypedFault, bound_in};

use fb_cert::{Certificate, print_cert};
use fb_faults::{NoBound, Refusal};
use fb_types::Typed;
use fb_verdict::read_system;
use fbr_files::Fault;
use std::alloc::Global;

/// The typed system of an application's text.
pub fn typed_in<'a>(alloc: Global, app: &str) -> Result<Typed, Fault<'a>>
    ensures typed { MatchResult result (IsTypedOf app.now) (IsTypedFault app.now) }
    ensures short { IfOk result (λ t. length app.now ≤ text_limit) }
{
    match read_system(alloc, app) {
        Ok(typed) => Ok(typed),
        Err(Refusal::OutOfMemory) => Err(Fault::Memory),
        Err(refusal) => Err(Fault::Refused(refusal)),
    }
}

/// What the finder answers, with its refusal as a fault.
pub fn bounded<'a>(found: Result<Certificate, NoBound>) -> Result<Certificate, Fault<'a>>
    ensures { result ≡ bound_in found }
{
    match found {
        Ok(certificate) => Ok(certificate),
        Err(NoBound::OutOfMemory) => Err(Fault::Memory),
        Err(fault) => Err(Fault::Unbound(fault)),
    }
}

/// The text of a certificate.
pub fn text_of<'a>(alloc: Global, certificate: &Certificate) -> Result<String, Fault<'a>>
    ensures text { MatchResult result (λ text. string_bytes text ≡ printed (rows_of certificate.now)) (λ f. f ≡ Memory) }
    ensures spelled { IfOk result (λ text. Spells (string_bytes text) (certificate_of certificate.now)) }
{
    match print_cert(alloc, certificate) {
        Ok(text) => Ok(text),
        Err(_) => Err(Fault::Memory),
    }
}
