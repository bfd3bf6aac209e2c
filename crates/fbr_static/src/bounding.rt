//! `fbr bound`.

ghost use Rattle.std.specs.Prelude.{◌≡◌, ◌≤◌, Some, IfOk, IfSome, option_map};
ghost use Rattle.fbr_files.specs.Outcomes.{Tells, refusal};
ghost use Rattle.fbr_files.specs.Writing.{AreApart, LeavesAllBut};
ghost use Rattle.fbr_words.specs.Requests.{sought_of};
ghost use Rattle.fbr_static.specs.Tellings.{IsPutOut, OrJson, OrNoted, TellsBound};

use crate::given::{Files, named, tell};
use crate::json::bound_json;
use crate::misread::misused;
use crate::noted::{counted, words_of_bound};
use fbr_check::texts_verified;
use fbr_files::{Fault, Sources, into_another, print_outcome, print_text, write_into};
use fbr_find::{RangesFrom, Wanted, read_wanted};
use fbr_tell::{Words, tell_noted, tell_shallow};
use fbr_words::Bound;
use std::alloc::Global;
use std::io;
use std::io::Write;

/// What people are told where a file that is read would be written.
pub const CLASH: &str = "fbr: `-o` takes another file than APP and CERT";

/// A text is printed, or written into the file that is named.
pub fn put_out<'a, S: Sources, W: Write, E: Write>(
    files: &mut S,
    into: Option<&'a str>,
    text: &str,
    output: &mut W,
    errors: &mut E,
) -> io::Result<u8>
    ensures told { IfOk result (λ status. IsPutOut (option_map (λ name. name.now) into.entry) text.now (S.contents files.old) (S.contents files.new) (W.contents output.old) (W.contents output.new) status) }
    ensures others { LeavesAllBut (S.same files.old) (option_map (λ name. name.now) into.entry) (S.contents files.old) (S.contents files.new) }
    ensures status { IfOk result (λ status. status ≤ 4) }
{
    match into {
        Some(name) => write_into(files, name, text.as_bytes(), output, errors),
        None => print_text(text, output),
    }
}

/// The files that were read for what is wanted.
pub fn files_of<'b, 'a>(wanted: &'b Wanted<'a>) -> Files<'b, 'a> {
    Files {
        app: &wanted.app,
        cert: None,
        rows: match &wanted.ranges {
            RangesFrom::Within(file) => Some(file),
            _ => None,
        },
        repeats: wanted.repeats,
        is_all: false,
    }
}

// Tells why there is no certificate, and people too.
fn refuse<'a, W: Write, E: Write>(
    alloc: Global,
    wanted: &Wanted<'a>,
    is_all: bool,
    fault: Fault<'a>,
    output: &mut W,
    errors: &mut E,
) -> io::Result<u8>
    ensures told { IfOk result (λ status. Tells (refusal fault.entry) (W.contents output.old) (W.contents output.new) status) }
    ensures status { IfOk result (λ status. status ≤ 4) }
{
    tell(alloc, &fault, files_of(wanted).with_all(is_all), errors);
    print_outcome(Err(fault), output)
}

// Warns people of queues for which a certificate that was found has no room for each arrival once, and tells them how many notes there are; and whether there are some.
fn warn<E: Write>(
    alloc: Global,
    wanted: &Wanted<'_>,
    words: Words<'_>,
    cert: &str,
    errors: &mut E,
) -> bool {
    let Ok(app) = wanted.app.text() else {
        return false;
    };
    match texts_verified(alloc, app, cert) {
        Ok(verified) => {
            tell_shallow(alloc, &verified, errors);
            let has_notes = tell_noted(alloc, &verified, named(&wanted.app), words, errors);
            verified.let_go();
            has_notes
        }
        Err(_) => false,
    }
}

// Finds the certificate that is wanted, and puts it out, or tells why there is none.
fn find<'a, S: Sources, W: Write, E: Write>(
    alloc: Global,
    request: Bound<'a>,
    files: &mut S,
    output: &mut W,
    errors: &mut E,
    has_notes: &mut bool,
) -> io::Result<u8>
    requires { IfSome request.repeats (λ n. 1 ≤ n) }
    ensures told { AreApart (S.same files.old) (sought_of request.entry).into (Some request.entry.app.now)
        → IfOk result (λ status. TellsBound (sought_of request.entry) (S.same files.old) (S.contents files.old) (S.contents files.new) (W.contents output.old) (W.contents output.new) status) }
    ensures others { LeavesAllBut (S.same files.old) (sought_of request.entry).into (S.contents files.old) (S.contents files.new) }
    ensures status { IfOk result (λ status. status ≤ 4) }
{
    let wanted = read_wanted(alloc, files, request);
    match wanted.text(alloc) {
        Ok(text) => {
            *has_notes = warn(alloc, &wanted, words_of_bound(request), &text, errors);
            put_out(files, request.into, text.as_str(), output, errors)
        }
        Err(fault) => refuse(alloc, &wanted, request.is_all, fault, output, errors),
    }
}

// Finds a certificate as it is asked for of the application in a file, and writes its text on `output`, or into the file that is named, or why there is none; on `errors`
// people are told of a fault, of notes, and of queues that do not take each arrival once. The application's own file is not written: such words are at fault.
fn bound_text<'a, S: Sources, W: Write, E: Write>(
    alloc: Global,
    request: Bound<'a>,
    files: &mut S,
    output: &mut W,
    errors: &mut E,
    has_notes: &mut bool,
) -> io::Result<u8>
    requires { IfSome request.repeats (λ n. 1 ≤ n) }
    ensures told { IfOk result (λ status. TellsBound (sought_of request.entry) (S.same files.old) (S.contents files.old) (S.contents files.new) (W.contents output.old) (W.contents output.new) status) }
    ensures others { LeavesAllBut (S.same files.old) (sought_of request.entry).into (S.contents files.old) (S.contents files.new) }
    ensures status { IfOk result (λ status. status ≤ 4) }
{
    if !into_another(files, request.into, Some(request.app)) {
        return misused(CLASH, output, errors);
    }
    find(alloc, request, files, output, errors, has_notes)
}

/// The same, or with `--json` a report of it. With `--strict` the status is 1 where there are notes.
pub fn bound<'a, S: Sources, W: Write, E: Write>(
    alloc: Global,
    request: Bound<'a>,
    files: &mut S,
    output: &mut W,
    errors: &mut E,
) -> io::Result<u8>
    requires { IfSome request.repeats (λ n. 1 ≤ n) }
    ensures told { IfOk result (λ status. OrJson request.entry.is_json (OrNoted request.entry.is_strict (TellsBound (sought_of request.entry) (S.same files.old) (S.contents files.old) (S.contents files.new) (W.contents output.old) (W.contents output.new)) status)) }
    ensures others { LeavesAllBut (S.same files.old) (sought_of request.entry).into (S.contents files.old) (S.contents files.new) }
    ensures status { IfOk result (λ status. status ≤ 4) }
{
    if request.is_json {
        return bound_json(alloc, request, files, output, errors);
    }
    let mut has_notes = false;
    let status = bound_text(alloc, request, files, output, errors, &mut has_notes)?;
    Ok(counted(request.is_strict, has_notes, status))
}
