//! `fbr explain`: the line of a verdict, and a page behind it. The pages are tested, and no contract says what stands in them.

ghost use Rattle.std.specs.Prelude.{◌≡◌, ◌⊎◌, ◌≤◌, ℕ, List, Option, IfOk, IfSome, map};
ghost use Rattle.fbr_files.specs.Outcomes.{outcome_said};
ghost use Rattle.fbr_files.specs.Placed.{outcome_at};
ghost use Rattle.fbr_files.specs.Reading.{IsRead};
ghost use Rattle.fbr_texts.specs.Parts.{start_of};
ghost use Rattle.fbr_words.specs.Requests.{question_of};
ghost use Rattle.fbr_static.specs.Tellings.{Begins, OrJson, TellsAlone, TellsExplain, TellsVerdict};

use crate::given::{Files, given_of, named};
use crate::json::explain_json;
use fb_numbers::read_number;
use fbr_check::{files_verified, texts_verified};
use fbr_files::{Fault, FileText, Sources, print_outcome, print_placed, read_app, read_file};
use fbr_find::read_wanted;
use fbr_tell::{Given, Page, accepted_page, refused_page, write_number};
use fbr_texts::Meant;
use fbr_words::{Bound, Explain};
use std::alloc::{AllocError, Global};
use std::io;
use std::io::Write;

// What stands behind the refusal of a number that none has.
const NO_NUMBER: &str =
    "What it says: no refusal and no denial has this number. Refusals have 1 to 5, 9 to 21 (a text), 30 to 42 (a certificate), 43 and 44 (none is found) and 59 to 63 (words, files and links); denials have 50 to 58 and 64.\nWhat to do: give the number behind `refused` or `denied`; if the application's file has a number for its name, write its folder too, as in `./99`\n";

// Writes what a number says and what to do. One that no refusal and no denial has is a fault of the words.
fn explain_number<W: Write>(number: u16, output: &mut W) -> io::Result<u8>
    ensures status { IfOk result (λ status. status ≤ 4) }
{
    if write_number(number, output)? {
        Ok(0)
    } else {
        let status = print_outcome(Err(Fault::Usage), output)?;
        output.write_all(NO_NUMBER.as_bytes())?;
        Ok(status)
    }
}

// Writes that memory ran out, and what to do.
fn explain_memory<W: Write>(output: &mut W) -> io::Result<u8>
    ensures status { IfOk result (λ status. status ≡ 4) }
{
    print_outcome(Err(Fault::Memory), output)?;
    write_number(9, output)?;
    Ok(4)
}

// Writes the line of an outcome, and behind it a page. Where one is strict, notes on it count in the status.
fn print_page<W: Write>(
    outcome: Result<(), Fault<'_>>,
    page: &Page,
    is_strict: bool,
    output: &mut W,
) -> io::Result<u8>
    ensures first { IfOk result (λ _. Begins (outcome_said outcome.entry) (W.contents output.old) (W.contents output.new)) }
    ensures status { IfOk result (λ status. status ≤ 4) }
{
    let status = print_outcome(outcome, output)?;
    output.write_all(page.bytes.as_slice())?;
    Ok(if page.has_notes && is_strict {
        1
    } else {
        status
    })
}

// Writes the line of an outcome and its page, where memory held it.
fn print_whole<W: Write>(
    outcome: Result<(), Fault<'_>>,
    page: Result<Page, AllocError>,
    is_strict: bool,
    output: &mut W,
) -> io::Result<u8>
    ensures first { IfOk result (λ status. Begins (outcome_said outcome.entry) (W.contents output.old) (W.contents output.new) ⊎ (status ≡ 4)) }
    ensures status { IfOk result (λ status. status ≤ 4) }
{
    match page {
        Ok(page) => print_page(outcome, &page, is_strict, output),
        Err(_) => explain_memory(output),
    }
}

// Writes the line of a fault of a text that is meant, and behind it a page.
fn print_placed_page<W: Write>(
    fault: &Fault<'_>,
    meant: Meant<'_>,
    page: &Page,
    output: &mut W,
) -> io::Result<u8>
    ensures first { IfOk result (λ _. Begins (outcome_at meant.entry.app.now (map start_of meant.entry.parts.now) fault.now) (W.contents output.old) (W.contents output.new)) }
    ensures status { IfOk result (λ status. status ≤ 4) }
{
    let status = print_placed(fault, meant, output)?;
    output.write_all(page.bytes.as_slice())?;
    Ok(status)
}

/// Explains a fault of a text that is meant.
pub fn explain_placed<W: Write>(
    alloc: Global,
    fault: &Fault<'_>,
    given: Given<'_>,
    meant: Meant<'_>,
    output: &mut W,
) -> io::Result<u8>
    ensures first { IfOk result (λ status. Begins (outcome_at meant.entry.app.now (map start_of meant.entry.parts.now) fault.now) (W.contents output.old) (W.contents output.new) ⊎ (status ≡ 4)) }
    ensures status { IfOk result (λ status. status ≤ 4) }
{
    if let Fault::Memory = fault {
        return explain_memory(output);
    }
    match refused_page(alloc, fault, given) {
        Ok(page) => print_placed_page(fault, meant, &page, output),
        Err(_) => explain_memory(output),
    }
}

// Explains the verdict over an application and its certificate.
fn explain_two<W: Write>(
    alloc: Global,
    app: &FileText<'_>,
    cert: &FileText<'_>,
    request: Explain<'_>,
    output: &mut W,
) -> io::Result<u8>
    ensures told { (held_app held_cert : Option (List ℕ)) → IsRead held_app app.now.held → IsRead held_cert cert.now.held
        → IfOk result (λ status. TellsVerdict app.now.name.now cert.now.name.now held_app held_cert (W.contents output.old) (W.contents output.new) status) }
    ensures status { IfOk result (λ status. status ≤ 4) }
{
    match files_verified(alloc, app, cert) {
        Ok(verified) => {
            let page = accepted_page(alloc, verified, named(app), request.allowed.unwrap_or(""));
            print_whole(Ok(()), page, request.is_strict, output)
        }
        Err(Fault::Memory) => explain_memory(output),
        Err(fault) => {
            let read = Files::two(app, cert).with_all(request.is_all);
            let page = refused_page(alloc, &fault, given_of(read));
            print_whole(Err(fault), page, request.is_strict, output)
        }
    }
}

// The page of an application by the text of the certificate that was found, which is accepted unless memory runs out.
fn found_page(
    alloc: Global,
    app: &FileText<'_>,
    text: &str,
    allowed: &str,
) -> Result<Page, AllocError> {
    let Ok(held) = app.text() else {
        return Err(AllocError);
    };
    match texts_verified(alloc, held, text) {
        Ok(verified) => accepted_page(alloc, verified, named(app), allowed),
        Err(_) => Err(AllocError),
    }
}

// The page of why there is no certificate of an application.
fn unbound_page(
    alloc: Global,
    fault: &Fault<'_>,
    app: &FileText<'_>,
    request: Explain<'_>,
) -> Result<Page, AllocError> {
    let files = Files {
        app,
        cert: None,
        rows: None,
        repeats: request.repeats,
        is_all: request.is_all,
    };
    refused_page(alloc, fault, given_of(files))
}

// Explains an application by the certificate that is found, or why there is none.
fn explain_one<S: Sources, W: Write>(
    alloc: Global,
    request: Explain<'_>,
    files: &S,
    output: &mut W,
) -> io::Result<u8>
    requires { IfSome request.repeats (λ n. 1 ≤ n) }
    ensures told { IfOk result (λ status. TellsAlone (question_of request.entry) (S.contents files.now) (W.contents output.old) (W.contents output.new) status) }
    ensures status { IfOk result (λ status. status ≤ 4) }
{
    let least = Bound::least(request.what, request.meant, request.repeats);
    let wanted = read_wanted(alloc, files, least);
    match wanted.text(alloc) {
        Ok(text) => {
            let allowed = request.allowed.unwrap_or("");
            let page = found_page(alloc, &wanted.app, text.as_str(), allowed);
            print_whole(Ok(()), page, request.is_strict, output)
        }
        Err(Fault::Memory) => explain_memory(output),
        Err(fault) => {
            let page = unbound_page(alloc, &fault, &wanted.app, request);
            print_whole(Err(fault), page, request.is_strict, output)
        }
    }
}

// Explains the number of a refusal or a denial, or else the verdict over the application in the file of this name: with the certificate of a second file, or with the one
// that is found. The first line is that of `check`, or of `bound` where there is no certificate, and so is the status; where one is strict, it is 1 too where there are notes.
fn explain_text<'a, S: Sources, W: Write>(
    alloc: Global,
    request: Explain<'a>,
    files: &S,
    output: &mut W,
) -> io::Result<u8>
    requires { IfSome request.repeats (λ n. 1 ≤ n) }
    ensures told { IfOk result (λ status. TellsExplain (question_of request.entry) (S.contents files.now) (W.contents output.old) (W.contents output.new) status) }
    ensures status { IfOk result (λ status. status ≤ 4) }
{
    if let Some(number) = read_number(request.what) {
        return explain_number(number, output);
    }
    match request.cert {
        Some(name) => {
            let app = read_app(alloc, files, request.what, request.meant);
            let cert = read_file(alloc, files, name);
            explain_two(alloc, &app, &cert, request, output)
        }
        None => explain_one(alloc, request, files, output),
    }
}

/// Explains the number of a refusal or a denial, or else the verdict over the application in the file of this name: with the certificate of a second file, or with the one
/// that is found; with `--json` in a report.
pub fn explain<'a, S: Sources, W: Write>(
    alloc: Global,
    request: Explain<'a>,
    files: &S,
    output: &mut W,
) -> io::Result<u8>
    requires { IfSome request.repeats (λ n. 1 ≤ n) }
    ensures told { IfOk result (λ status. OrJson request.entry.is_json (TellsExplain (question_of request.entry) (S.contents files.now) (W.contents output.old) (W.contents output.new) status)) }
    ensures status { IfOk result (λ status. status ≤ 4) }
{
    if request.is_json {
        return explain_json(alloc, request, files, output);
    }
    explain_text(alloc, request, files, output)
}
