//! `fbr check`, and the verdict over standard input.

ghost use Rattle.std.specs.Prelude.{◌≡◌, ◌≤◌, ℕ, List, Option, IfOk};
ghost use Rattle.fbr_check.specs.Verdicts.{IsFilesOutcome, TellsInput, TellsFiles};
ghost use Rattle.fbr_files.specs.Reading.{IsRead, held_by};
ghost use Rattle.fbr_words.specs.Requests.{meant_of};
ghost use Rattle.fbr_static.specs.Tellings.{OrJson, OrNoted};

use crate::given::{Files, named, tell};
use crate::json::check_json;
use crate::noted::{counted, words_of_check};
use fbr_check::{files_verified, input_outcome};
use fbr_files::{Fault, FileText, Sources, print_outcome, read_app, read_file};
use fbr_tell::{Words, tell_noted, tell_shallow};
use fbr_words::Check;
use std::alloc::Global;
use std::io;
use std::io::{Read, Write};

/// Checks what standard input holds, and writes the outcome and nothing else.
pub fn check_input<I: Read, W: Write>(
    alloc: Global,
    input: &mut I,
    output: &mut W,
) -> io::Result<u8>
    ensures told { IfOk result (λ status. TellsInput (I.remaining input.old) (W.contents output.old) (W.contents output.new) status) }
    ensures status { IfOk result (λ status. status ≤ 4) }
{
    let outcome = input_outcome(alloc, input);
    print_outcome(outcome, output)
}

// The verdict over two files that were read; where they are accepted, people are told how many notes there are, and warned of queues that do not take each arrival once.
fn warned_outcome<'a, E: Write>(
    alloc: Global,
    app: &FileText<'a>,
    cert: &FileText<'a>,
    words: Words<'_>,
    errors: &mut E,
    has_notes: &mut bool,
) -> Result<(), Fault<'a>>
    ensures { (held_app held_cert : Option (List ℕ)) → IsRead held_app app.now.held → IsRead held_cert cert.now.held → IsFilesOutcome app.now.name.now cert.now.name.now held_app held_cert result }
{
    match files_verified(alloc, app, cert) {
        Ok(verified) => {
            tell_shallow(alloc, &verified, errors);
            *has_notes = tell_noted(alloc, &verified, named(app), words, errors);
            verified.let_go();
            Ok(())
        }
        Err(fault) => Err(fault),
    }
}

// Checks two files, and writes the outcome and nothing else; on `errors` people are told of a fault, of notes, and of queues that do not take each arrival once.
fn check_text<'a, S: Sources, W: Write, E: Write>(
    alloc: Global,
    request: Check<'a>,
    files: &S,
    output: &mut W,
    errors: &mut E,
    has_notes: &mut bool,
) -> io::Result<u8>
    ensures told { IfOk result (λ status. TellsFiles request.entry.app.now request.entry.cert.now (held_by (meant_of request.entry.meant) (S.contents files.now request.entry.app.now)) (S.contents files.now request.entry.cert.now) (W.contents output.old) (W.contents output.new) status) }
    ensures status { IfOk result (λ status. status ≤ 4) }
{
    let app = read_app(alloc, files, request.app, request.meant);
    let cert = read_file(alloc, files, request.cert);
    let words = words_of_check(request);
    let outcome = warned_outcome(alloc, &app, &cert, words, errors, has_notes);
    if let Err(fault) = &outcome {
        let read = Files::two(&app, &cert).with_all(request.is_all);
        tell(alloc, fault, read, errors);
    }
    print_outcome(outcome, output)
}

/// Checks two files, and writes the outcome and nothing else, or with `--json` a report of it; on `errors` people are told of a fault, of notes, and of queues that do not
/// take each arrival once. With `--strict` the status is 1 where there are notes.
pub fn check<'a, S: Sources, W: Write, E: Write>(
    alloc: Global,
    request: Check<'a>,
    files: &S,
    output: &mut W,
    errors: &mut E,
) -> io::Result<u8>
    ensures told { IfOk result (λ status. OrJson request.entry.is_json (OrNoted request.entry.is_strict (TellsFiles request.entry.app.now request.entry.cert.now (held_by (meant_of request.entry.meant) (S.contents files.now request.entry.app.now)) (S.contents files.now request.entry.cert.now) (W.contents output.old) (W.contents output.new)) status)) }
    ensures status { IfOk result (λ status. status ≤ 4) }
{
    if request.is_json {
        return check_json(alloc, request, files, output, errors);
    }
    let mut has_notes = false;
    let status = check_text(alloc, request, files, output, errors, &mut has_notes)?;
    Ok(counted(request.is_strict, has_notes, status))
}
