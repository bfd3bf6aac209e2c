//! The verdict over two texts.

ghost use Rattle.std.specs.Prelude.{List, ℕ, Option};
ghost use Rattle.fbr_files.specs.Reading.{IsRead};
ghost use Rattle.fbr_check.specs.Verdicts.{IsVerdict, IsVerifiedTexts, IsVerified};

use fb_faults::Refusal;
use fb_verdict::check_text;
use fb_verified::Verified;
use fbr_files::{Fault, FileText};
use std::alloc::Global;

/// What was verified of two texts.
pub fn texts_verified<'a>(alloc: Global, app: &str, cert: &str) -> Result<Verified, Fault<'a>>
    ensures { IsVerifiedTexts app.now cert.now result }
{
    match check_text(alloc, app, cert) {
        Ok(verified) => Ok(verified),
        Err(Refusal::OutOfMemory) => Err(Fault::Memory),
        Err(refusal) => Err(Fault::Refused(refusal)),
    }
}

/// The verdict over two texts.
pub fn texts_outcome<'a>(alloc: Global, app: &str, cert: &str) -> Result<(), Fault<'a>>
    ensures { IsVerdict app.now cert.now result }
{
    match texts_verified(alloc, app, cert) {
        Ok(verified) => {
            verified.let_go();
            Ok(())
        }
        Err(fault) => Err(fault),
    }
}

/// What was verified of two files that were read.
pub fn files_verified<'a>(
    alloc: Global,
    app: &FileText<'a>,
    cert: &FileText<'a>,
) -> Result<Verified, Fault<'a>>
    ensures { (held_app held_cert : Option (List ℕ)) → IsRead held_app app.now.held → IsRead held_cert cert.now.held → IsVerified app.now.name.now cert.now.name.now held_app held_cert result }
{
    match app.text() {
        Ok(app) => match cert.text() {
            Ok(cert) => texts_verified(alloc, app, cert),
            Err(fault) => Err(fault),
        },
        Err(fault) => Err(fault),
    }
}
