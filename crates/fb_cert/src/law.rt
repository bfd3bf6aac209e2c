//! Laws of certificate texts.

ghost use Rattle.std.specs.Prelude.{◌≡◌, ℕ, List};
ghost use Rattle.fb_model.specs.Certificates as book;
ghost use Rattle.fb_model.specs.CertificateText.{Spells};
ghost use Rattle.fb_cert.specs.Views.{rows_of, certificate_of};
ghost use Rattle.fb_cert.specs.Printed.{printed};

use crate::certificate::Certificate;

/// No text spells two certificates.
pub fn spelled_once()
    ensures { (text : List ℕ) (one other : book.Certificate) → Spells text one → Spells text other → one ≡ other }
{}

/// What is printed of a certificate spells it: nothing is done.
pub fn printed_spells(certificate: &Certificate)
    ensures { Spells (printed (rows_of certificate.now)) (certificate_of certificate.now) }
{
    let _ = &certificate.lists;
}
