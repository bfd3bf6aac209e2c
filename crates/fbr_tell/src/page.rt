//! Pages that explain verdicts, and numbers of refusals. They are tested, and no contract says what stands in them. A page is written into memory: it is whole, or memory
//! ran out.

ghost use Rattle.std.specs.Prelude.{◌≤◌, IfSome};

use crate::all::{Listener, MORE, tell_all};
use crate::given::{Given, NamedFile};
use crate::line::{certificate_of, put_fault};
use crate::noted::tell_unknown;
use crate::stray::{AS_UTF8, stray_in};
use crate::teller::Teller;
use fb_faults::{CertFault, NoBound, Refusal};
use fb_find::find;
use fb_find_length::rows_are_long;
use fb_verdict::check;
use fb_verified::Verified;
use fbr_diagnosis::{Asked, Diagnosis, Meaning, Reading, diagnose, diagnose_unbound, meaning_of};
use fbr_explain::{meaning_parts, tell_short};
use fbr_files::Fault;
use fbr_leaves::{Resolved, system_in};
use fbr_places::{Named, Writing};
use std::alloc::{AllocError, Global};
use std::io;
use std::io::Write;

/// What stands behind the line of a verdict, and whether there are notes in it.
#[derive(Drop)]
pub struct Page {
    pub bytes: Vec<u8>,
    pub has_notes: bool,
}

/// A verdict that was told, and whether there are notes on it.
#[derive(Drop)]
pub struct Answer<'a> {
    pub verdict: Result<(), Fault<'a>>,
    pub has_notes: bool,
}

/// Writes what the number of a refusal or a denial says and what to do; false where none of them has it.
pub fn write_number<W: Write>(number: u16, output: &mut W) -> io::Result<bool> {
    match u8::try_from(number).ok().and_then(meaning_of) {
        Some(meaning) => {
            for part in meaning_parts(meaning) {
                output.write_all(part.as_bytes())?;
            }
            Ok(true)
        }
        None => Ok(false),
    }
}

// What there is to say of a refusal, by what was read of its texts.
fn tell_read<T: Teller>(
    asked: Asked<'_>,
    refusal: &Refusal,
    reading: &Reading,
    teller: &mut T,
) -> Result<(), AllocError> {
    let diagnosis = diagnose(asked, refusal, reading)?;
    teller.diagnosis(asked, &diagnosis)
}

// What there is to say of a refusal of two texts.
fn tell_refused<T: Teller>(
    asked: Asked<'_>,
    refusal: &Refusal,
    teller: &mut T,
) -> Result<(), AllocError> {
    let reading = Reading::of(asked.alloc, refusal, asked.app.text, asked.cert.text)?;
    let told = tell_read(asked, refusal, &reading, teller);
    reading.let_go();
    told
}

// The same of one that is let go.
fn explain_refusal<'a, T: Teller>(
    asked: Asked<'_>,
    refusal: Refusal,
    teller: &mut T,
) -> Result<Answer<'a>, AllocError> {
    let told = tell_refused(asked, &refusal, teller);
    let verdict = Err(Fault::Refused(refusal));
    told?;
    Ok(Answer {
        verdict,
        has_notes: false,
    })
}

// The bounds of what fits, and notes on the application's text.
fn explain_bounds<'a, T: Teller>(
    alloc: Global,
    verified: Verified,
    app: Named<'_>,
    allowed: &str,
    teller: &mut T,
) -> Result<Answer<'a>, AllocError> {
    let told = teller.bounds(alloc, &verified, app, allowed);
    verified.let_go();
    Ok(Answer {
        verdict: Ok(()),
        has_notes: told?,
    })
}

// What there is to say of a verdict over two texts.
fn explain_verdict<'a, T: Teller>(
    asked: Asked<'_>,
    verdict: Result<Verified, Refusal>,
    allowed: &str,
    teller: &mut T,
) -> Result<Answer<'a>, AllocError> {
    match verdict {
        Ok(verified) => explain_bounds(asked.alloc, verified, asked.app, allowed, teller),
        Err(Refusal::OutOfMemory) => Err(AllocError),
        Err(refusal) => explain_refusal(asked, refusal, teller),
    }
}

// Why there is no certificate of a system, by what was read of it.
fn tell_reason<T: Teller>(
    asked: Asked<'_>,
    reason: &NoBound,
    reading: &Reading,
    teller: &mut T,
) -> Result<(), AllocError> {
    let diagnosis = diagnose_unbound(asked, reason, reading)?;
    teller.diagnosis(asked, &diagnosis)
}

// Why there is no certificate of a system.
fn tell_unbound<T: Teller>(
    asked: Asked<'_>,
    reason: &NoBound,
    resolved: Resolved,
    teller: &mut T,
) -> Result<(), AllocError> {
    let system = resolved.flattened_again(asked.alloc)?;
    let reading = Reading::System(system, None);
    let told = tell_reason(asked, reason, &reading, teller);
    reading.let_go();
    told
}

// The same of a reason that is let go.
fn explain_unbound<'a, T: Teller>(
    asked: Asked<'_>,
    reason: NoBound,
    resolved: Resolved,
    teller: &mut T,
) -> Result<Answer<'a>, AllocError> {
    let told = tell_unbound(asked, &reason, resolved, teller);
    let verdict = Err(Fault::Unbound(reason));
    told?;
    Ok(Answer {
        verdict,
        has_notes: false,
    })
}

// What there is to say of a system by the certificate that is found of it, or why there is none.
fn explain_system<'a, T: Teller>(
    asked: Asked<'_>,
    resolved: Resolved,
    repeats: Option<u8>,
    allowed: &str,
    teller: &mut T,
) -> Result<Answer<'a>, AllocError>
    requires { IfSome repeats (λ r. 1 ≤ r) }
{
    if rows_are_long(&resolved.typed, repeats) {
        resolved.let_go();
        return explain_refusal(asked, Refusal::Certificate(CertFault::TooLong), teller);
    }
    match find(asked.alloc, &resolved.typed, repeats) {
        Ok(certificate) => {
            let verdict = check(asked.alloc, resolved.into_typed(), certificate);
            explain_verdict(asked, verdict, allowed, teller)
        }
        Err(NoBound::OutOfMemory) => {
            resolved.let_go();
            Err(AllocError)
        }
        Err(reason) => explain_unbound(asked, reason, resolved, teller),
    }
}

// Two texts that a page is of.
fn asked_of<'a>(alloc: Global, app: Named<'a>, cert: Named<'a>) -> Asked<'a> {
    Asked {
        alloc,
        app,
        cert,
        is_searched: true,
    }
}

// What there is to say of an application's text by itself.
fn explain_alone<'a, T: Teller>(
    alloc: Global,
    repeats: Option<u8>,
    app: Named<'_>,
    allowed: &str,
    teller: &mut T,
) -> Result<Answer<'a>, AllocError>
    requires { IfSome repeats (λ r. 1 ≤ r) }
{
    let asked = asked_of(alloc, app, app);
    match system_in(alloc, app.text) {
        Ok(resolved) => explain_system(asked, resolved, repeats, allowed, teller),
        Err(refusal) => explain_verdict(asked, Err(refusal), allowed, teller),
    }
}

// What was written, where memory held all of it.
fn page_of(writing: Writing, has_notes: bool) -> Result<Page, AllocError> {
    match writing.end() {
        Ok(bytes) => Ok(Page { bytes, has_notes }),
        Err(_) => Err(AllocError),
    }
}

/// Tells of an application whose certificate fits: its bounds, and notes but for those whose names are allowed; and whether there are notes.
pub fn tell_accepted<T: Teller>(
    alloc: Global,
    verified: Verified,
    app: NamedFile<'_>,
    allowed: &str,
    teller: &mut T,
) -> Result<bool, AllocError> {
    match app.named() {
        Some(app) => {
            let answer = explain_bounds(alloc, verified, app, allowed, teller)?;
            Ok(answer.has_notes)
        }
        None => {
            verified.let_go();
            Ok(false)
        }
    }
}

/// The page of an application whose certificate fits, without notes whose names are allowed.
pub fn accepted_page(
    alloc: Global,
    verified: Verified,
    app: NamedFile<'_>,
    allowed: &str,
) -> Result<Page, AllocError> {
    let mut writing = Writing::new(alloc);
    let has_notes = tell_accepted(alloc, verified, app, allowed, &mut writing)?;
    tell_unknown(allowed, &mut writing);
    page_of(writing, has_notes)
}

// Tells which byte of a file that was not read is the first that is no UTF-8, where it is that; and what the number of a fault says.
fn tell_number<T: Teller>(alloc: Global, fault: &Fault<'_>, given: Given<'_>, teller: &mut T) {
    let mut remedy = "";
    if let Fault::File(name) = fault {
        if let Some(said) = stray_in(alloc, given.file(name)) {
            teller.stray(said.as_str());
            remedy = AS_UTF8;
        }
    }
    if let Some(meaning) = meaning_of(fault.code()) {
        teller.meaning(match remedy {
            "" => meaning,
            _ => Meaning {
                says: meaning.says,
                remedy,
            },
        });
    }
}

// Tells why there is no certificate of an application that was read before.
fn tell_reason_again<T: Teller>(
    asked: Asked<'_>,
    reason: &NoBound,
    teller: &mut T,
) -> Result<(), AllocError> {
    match system_in(asked.alloc, asked.app.text) {
        Ok(resolved) => tell_unbound(asked, reason, resolved, teller),
        Err(_) => Err(AllocError),
    }
}

// Whether ranges are at fault that were to be kept: which statement it is under these is not looked for.
fn is_kept(reason: &NoBound, given: Given<'_>) -> bool {
    matches!(reason, NoBound::NoRange(_)) && given.rows.is_some()
}

/// Tells of a fault of files, which is not want of memory, or of why there is no certificate.
pub fn tell_fault<T: Teller>(
    alloc: Global,
    fault: &Fault<'_>,
    given: Given<'_>,
    teller: &mut T,
) -> Result<(), AllocError> {
    let cert = certificate_of(fault, given).unwrap_or(given.app);
    match (fault, given.app.named(), cert.named()) {
        (Fault::Refused(refusal), Some(app), Some(cert)) => {
            tell_refused(asked_of(alloc, app, cert), refusal, teller)
        }
        (Fault::Unbound(reason), Some(app), _) if !is_kept(reason, given) => {
            tell_reason_again(asked_of(alloc, app, app), reason, teller)
        }
        _ => {
            tell_number(alloc, fault, given, teller);
            Ok(())
        }
    }
}

// Pages of further faults.
#[derive(Drop)]
struct Pages {
    writing: Writing,
}

impl Listener for Pages {
    fn fault(
        &mut self,
        asked: Asked<'_>,
        fault: &Fault<'_>,
        diagnosis: &Diagnosis<'_>,
    ) -> Result<(), AllocError> {
        self.writing.put("\n");
        put_fault(fault, asked.app.meant, &mut self.writing);
        self.writing.put("\n");
        tell_short(diagnosis, &mut self.writing);
        Ok(())
    }

    fn more(&mut self) {
        self.writing.put("\n");
        self.writing.put(MORE);
    }
}

/// The page of a fault of files, which is not want of memory, or of why there is no certificate; behind it, where it is asked for, short ones of all further faults of the
/// application's text.
pub fn refused_page(
    alloc: Global,
    fault: &Fault<'_>,
    given: Given<'_>,
) -> Result<Page, AllocError> {
    let mut writing = Writing::new(alloc);
    tell_fault(alloc, fault, given, &mut writing)?;
    if given.is_all {
        let mut pages = Pages { writing };
        tell_all(alloc, fault, given.app, false, &mut pages)?;
        let Pages { writing } = pages;
        return page_of(writing, false);
    }
    page_of(writing, false)
}

/// Tells of an application by itself: by the certificate that is found, for `repeats`, 1 or more, over all devices too, or of why there is none; and gives the verdict.
pub fn tell_alone<'a, T: Teller>(
    alloc: Global,
    app: NamedFile<'a>,
    repeats: Option<u8>,
    allowed: &str,
    teller: &mut T,
) -> Result<Answer<'a>, AllocError>
    requires { IfSome repeats (λ r. 1 ≤ r) }
{
    match app.text() {
        Ok(text) => explain_alone(alloc, repeats, text, allowed, teller),
        Err(Fault::Memory) => Err(AllocError),
        Err(fault) => {
            tell_number(alloc, &fault, Given::of(app), teller);
            Ok(Answer {
                verdict: Err(fault),
                has_notes: false,
            })
        }
    }
}
