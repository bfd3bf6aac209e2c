//! `--json` of `check`, `bound` and `explain`: one object on a line, for programs. It is tested, and no contract says what stands in it.

ghost use Rattle.std.specs.Prelude.{◌≡◌, ◌≤◌, IfOk, IfSome, option_map};
ghost use Rattle.fbr_files.specs.Writing.{LeavesAllBut};
ghost use Rattle.fbr_words.specs.Requests.{sought_of};

use crate::bounding::{CLASH, files_of, put_out};
use crate::given::{Files, given_of, named, tell};
use crate::noted::{counted, words_of_bound, words_of_check};
use fb_numbers::read_number;
use fb_verified::Verified;
use fbr_check::{files_verified, texts_verified};
use fbr_files::{Fault, FileText, Sources, into_another, read_app, read_file};
use fbr_find::{Wanted, read_wanted};
use fbr_json::{Report, memory_parts, number_text};
use fbr_tell::{Given, NamedFile, tell_accepted, tell_alone, tell_fault, tell_noted, tell_shallow};
use fbr_texts::Meant;
use fbr_words::{Bound, Check, Explain};
use std::alloc::{AllocError, Global};
use std::io;
use std::io::{Read, Write};

/// The text of a report, and the status that the program ends with.
#[derive(Drop)]
pub struct Told {
    pub text: String,
    pub status: u8,
}

// The status of a verdict. Where notes on it count and there are some, it is 1.
fn status_of(verdict: &Result<(), Fault<'_>>, is_noted: bool) -> u8
    ensures { result ≤ 4 }
{
    match verdict {
        Ok(()) => { if is_noted { 1 } else { 0 } }
        Err(fault) => fault.status(),
    }
}

/// Prints that memory ran out.
pub fn print_memory<W: Write>(command: &str, output: &mut W) -> io::Result<u8>
    ensures status { IfOk result (λ status. status ≤ 4) }
{
    let [before, behind] = memory_parts();
    output.write_all(before.as_bytes())?;
    output.write_all(command.as_bytes())?;
    output.write_all(behind.as_bytes())?;
    Ok(4)
}

/// Prints a report, or that memory ran out.
pub fn print_told<W: Write>(
    told: Result<Told, AllocError>,
    command: &str,
    output: &mut W,
) -> io::Result<u8>
    requires { IfOk told (λ t. t.status ≤ 4) }
    ensures status { IfOk result (λ status. status ≤ 4) }
{
    match told {
        Ok(told) => {
            output.write_all(told.text.as_bytes())?;
            Ok(told.status)
        }
        Err(_) => print_memory(command, output),
    }
}

// The report of a verdict of which all else was told.
fn ended(
    report: Report,
    command: &str,
    verdict: &Result<(), Fault<'_>>,
    meant: Option<Meant<'_>>,
    is_noted: bool,
) -> Result<Told, AllocError>
    ensures { IfOk result (λ t. t.status ≤ 4) }
{
    let status = status_of(verdict, is_noted);
    match report.end_verdict(command, verdict, meant, status) {
        Ok(text) => Ok(Told { text, status }),
        Err(_) => Err(AllocError),
    }
}

// Whether notes count in the status, and the names of those that are allowed.
#[derive(Clone, Copy)]
struct Counting<'a> {
    is_strict: bool,
    allowed: Option<&'a str>,
}

impl<'a> Counting<'a> {
    // The names, with commas between them.
    fn names(self) -> &'a str {
        self.allowed.unwrap_or("")
    }
}

// The report of what fits.
fn accepted(
    alloc: Global,
    command: &str,
    verified: Verified,
    app: NamedFile<'_>,
    counting: Counting<'_>,
) -> Result<Told, AllocError>
    ensures { IfOk result (λ t. t.status ≤ 4) }
{
    let mut report = Report::new(alloc);
    match tell_accepted(alloc, verified, app, counting.names(), &mut report) {
        Ok(has_notes) => {
            let is_noted = has_notes && counting.is_strict;
            ended(report, command, &Ok(()), None, is_noted)
        }
        Err(_) => Err(AllocError),
    }
}

// The report of a certificate that was found, and of what it says.
fn found(
    alloc: Global,
    verified: Verified,
    app: NamedFile<'_>,
    text: &str,
    counting: Counting<'_>,
) -> Result<Told, AllocError>
    ensures { IfOk result (λ t. t.status ≤ 4) }
{
    let mut report = Report::new(alloc);
    report.certificate(text);
    match tell_accepted(alloc, verified, app, counting.names(), &mut report) {
        Ok(has_notes) => {
            let is_noted = has_notes && counting.is_strict;
            ended(report, "bound", &Ok(()), None, is_noted)
        }
        Err(_) => Err(AllocError),
    }
}

/// The report of a fault.
pub fn refused(
    alloc: Global,
    command: &str,
    fault: Fault<'_>,
    given: Given<'_>,
) -> Result<Told, AllocError>
    ensures { IfOk result (λ t. t.status ≤ 4) }
{
    let mut report = Report::new(alloc);
    match tell_fault(alloc, &fault, given, &mut report) {
        Ok(()) => {
            if given.is_all {
                report.faults(&fault, given.app)?;
            }
            ended(report, command, &Err(fault), given.app.meant, false)
        }
        Err(_) => Err(AllocError),
    }
}

/// Checks two files, and writes a report of the verdict; on `errors` people are told what they are told without `--json`.
pub fn check_json<'a, S: Sources, W: Write, E: Write>(
    alloc: Global,
    request: Check<'a>,
    files: &S,
    output: &mut W,
    errors: &mut E,
) -> io::Result<u8>
    ensures status { IfOk result (λ status. status ≤ 4) }
{
    let app = read_app(alloc, files, request.app, request.meant);
    let cert = read_file(alloc, files, request.cert);
    let told = match files_verified(alloc, &app, &cert) {
        Ok(verified) => {
            tell_shallow(alloc, &verified, errors);
            tell_noted(
                alloc,
                &verified,
                named(&app),
                words_of_check(request),
                errors,
            );
            let counting = Counting {
                is_strict: request.is_strict,
                allowed: request.allowed,
            };
            accepted(alloc, "check", verified, named(&app), counting)
        }
        Err(fault) => {
            let given = Files::two(&app, &cert).with_all(request.is_all);
            tell(alloc, &fault, given, errors);
            refused(alloc, "check", fault, given_of(given))
        }
    };
    print_told(told, "check", output)
}

// Puts out the report of a certificate that was found.
fn put_found<'a, S: Sources, W: Write, E: Write>(
    told: Result<Told, AllocError>,
    into: Option<&'a str>,
    files: &mut S,
    output: &mut W,
    errors: &mut E,
) -> io::Result<u8>
    ensures others { LeavesAllBut (S.same files.old) (option_map (λ name. name.now) into.entry) (S.contents files.old) (S.contents files.new) }
    ensures status { IfOk result (λ status. status ≤ 4) }
{
    match told {
        Ok(told) => {
            let status = put_out(files, into, told.text.as_str(), output, errors)?;
            Ok(counted(true, told.status == 1, status))
        }
        Err(_) => print_memory("bound", output),
    }
}

// The report of a certificate that was found; people are warned of queues that do not take each arrival once.
fn found_told<E: Write>(
    alloc: Global,
    wanted: &Wanted<'_>,
    request: Bound<'_>,
    text: &str,
    errors: &mut E,
) -> Result<Told, AllocError>
    ensures { IfOk result (λ t. t.status ≤ 4) }
{
    let Ok(app) = wanted.app.text() else {
        return Err(AllocError);
    };
    match texts_verified(alloc, app, text) {
        Ok(verified) => {
            tell_shallow(alloc, &verified, errors);
            let words = words_of_bound(request);
            tell_noted(alloc, &verified, named(&wanted.app), words, errors);
            let counting = Counting {
                is_strict: request.is_strict,
                allowed: request.allowed,
            };
            found(alloc, verified, named(&wanted.app), text, counting)
        }
        // What is found is accepted unless memory runs out.
        Err(_) => Err(AllocError),
    }
}

/// The report of words that are at fault, as those that would write a file which is read.
pub fn clash_told(alloc: Global, command: &str) -> Result<Told, AllocError>
    ensures { IfOk result (λ t. t.status ≤ 4) }
{
    let mut report = Report::new(alloc);
    report.number(63);
    ended(report, command, &Err(Fault::Usage), None, false)
}

/// Finds a certificate as it is asked for, and writes a report of it on `output`, or into the file that is named; or a report of why there is none, on `output`. On
/// `errors` people are told what they are told without `--json`. The application's own file is not written.
pub fn bound_json<'a, S: Sources, W: Write, E: Write>(
    alloc: Global,
    request: Bound<'a>,
    files: &mut S,
    output: &mut W,
    errors: &mut E,
) -> io::Result<u8>
    requires { IfSome request.repeats (λ n. 1 ≤ n) }
    ensures others { LeavesAllBut (S.same files.old) (sought_of request.entry).into (S.contents files.old) (S.contents files.new) }
    ensures status { IfOk result (λ status. status ≤ 4) }
{
    if !into_another(files, request.into, Some(request.app)) {
        let _ = writeln!(errors, "{CLASH}");
        return print_told(clash_told(alloc, "bound"), "bound", output);
    }
    let wanted = read_wanted(alloc, files, request);
    match wanted.text(alloc) {
        Ok(text) => {
            let told = found_told(alloc, &wanted, request, text.as_str(), errors);
            put_found(told, request.into, files, output, errors)
        }
        Err(fault) => {
            let given = files_of(&wanted).with_all(request.is_all);
            tell(alloc, &fault, given, errors);
            print_told(
                refused(alloc, "bound", fault, given_of(given)),
                "bound",
                output,
            )
        }
    }
}

// The report of what a number says. One that no refusal and no denial has is a fault of the words.
fn number_told(alloc: Global, number: u16) -> Result<Told, AllocError>
    ensures { IfOk result (λ t. t.status ≤ 4) }
{
    match number_text(alloc, number) {
        Ok(Some(text)) => Ok(Told { text, status: 0 }),
        Ok(None) => clash_told(alloc, "explain"),
        Err(_) => Err(AllocError),
    }
}

// The report of the verdict over an application and its certificate.
fn two_told(
    alloc: Global,
    app: &FileText<'_>,
    cert: &FileText<'_>,
    request: Explain<'_>,
) -> Result<Told, AllocError>
    ensures { IfOk result (λ t. t.status ≤ 4) }
{
    let counting = Counting {
        is_strict: request.is_strict,
        allowed: request.allowed,
    };
    match files_verified(alloc, app, cert) {
        Ok(verified) => accepted(alloc, "explain", verified, named(app), counting),
        Err(fault) => {
            let read = Files::two(app, cert).with_all(request.is_all);
            refused(alloc, "explain", fault, given_of(read))
        }
    }
}

// The report of an application by the certificate that is found, or of why there is none.
fn one_told(alloc: Global, app: &FileText<'_>, request: Explain<'_>) -> Result<Told, AllocError>
    requires { IfSome request.repeats (λ n. 1 ≤ n) }
    ensures { IfOk result (λ t. t.status ≤ 4) }
{
    let mut report = Report::new(alloc);
    let allowed = request.allowed.unwrap_or("");
    match tell_alone(alloc, named(app), request.repeats, allowed, &mut report) {
        Ok(answer) => {
            if let (true, Err(fault)) = (request.is_all, &answer.verdict) {
                report.faults(fault, named(app))?;
            }
            let is_noted = answer.has_notes && request.is_strict;
            ended(report, "explain", &answer.verdict, app.meant, is_noted)
        }
        Err(_) => Err(AllocError),
    }
}

/// Writes a report of what a number says, or of the verdict over the application in the file of this name, as `explain` gives it without `--json`.
pub fn explain_json<'a, S: Sources, W: Write>(
    alloc: Global,
    request: Explain<'a>,
    files: &S,
    output: &mut W,
) -> io::Result<u8>
    requires { IfSome request.repeats (λ n. 1 ≤ n) }
    ensures status { IfOk result (λ status. status ≤ 4) }
{
    if let Some(number) = read_number(request.what) {
        return print_told(number_told(alloc, number), "explain", output);
    }
    let app = read_app(alloc, files, request.what, request.meant);
    match request.cert {
        Some(name) => {
            let cert = read_file(alloc, files, name);
            let told = two_told(alloc, &app, &cert, request);
            print_told(told, "explain", output)
        }
        None => print_told(one_told(alloc, &app, request), "explain", output),
    }
}
