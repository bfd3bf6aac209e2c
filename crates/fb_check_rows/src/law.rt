//! A law of certificates that texts spell.

ghost use Rattle.std.specs.Prelude.{ℕ, List};
ghost use Rattle.fb_model.specs.Certificates.{Certificate};
ghost use Rattle.fb_model.specs.CertificateText.{Spells};
ghost use Rattle.fb_check_rows.specs.Faults.{HasNoRowTwice};

/// No certificate that a text spells has a row twice.
pub fn no_row_is_spelled_twice()
    ensures { (text : List ℕ) (certificate : Certificate) → Spells text certificate → HasNoRowTwice certificate }
{}
