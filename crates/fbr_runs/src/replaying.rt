//! `fbr replay`.

ghost use Rattle.std.specs.Prelude.{◌≡◌, ◌≤◌, IfOk};
ghost use Rattle.fbr_files.specs.Outcomes.{Tells, refusal};
ghost use Rattle.fbr_files.specs.Writing.{LeavesAll};
ghost use Rattle.fbr_files.specs.declared.fault.Fault.TheVariants.{Usage};
ghost use Rattle.fbr_words.specs.Program.{kept_by};
ghost use Rattle.fbr_words.specs.Requests.{replaying_of, watching_of};
ghost use Rattle.fbr_static.specs.Tellings.{OrJson};
ghost use Rattle.fbr_runs.specs.Running.{TellsReplay};

use crate::kept::{OVERWRITTEN, is_plain, overwrites, put_kept, wish_of};
use crate::reporting::misused_told;
use fb_verified::Verified;
use fbr_check::files_verified;
use fbr_files::{Fault, FileText, Sources, print_outcome, read_app, read_file};
use fbr_json::Report;
use fbr_notices::Sums;
use fbr_serve::{Blind, Replayed, Subject, Viewer, load_recorded, replay_ready, replay_told};
use fbr_signals::Signals;
use fbr_static::{
    Files, Told, given_of, misused, print_memory, print_told, refused as refused_told, tell,
};
use fbr_tell::tell_shallow;
use fbr_watch::Seen;
use fbr_words::{Replay, Watched};
use std::alloc::{AllocError, Global};
use std::io;
use std::io::{BufReader, ErrorKind, Read, Write};

// What is replayed: the two files that a record was made with, and what is asked for.
#[derive(Clone, Copy)]
struct Stage<'b, 'a> {
    alloc: Global,
    app: &'b FileText<'a>,
    cert: &'b FileText<'a>,
    request: &'b Replay<'a>,
}

// The program's status, what was kept of the turns, and how they went if programs are to be told of it at the end.
#[derive(Drop)]
struct Shown<'a> {
    status: u8,
    seen: Seen,
    end: Option<Result<Sums, Fault<'a>>>,
}

// That nothing was kept, with the status of what was told.
fn shown_none<'a>(alloc: Global, status: u8) -> Shown<'a>
    ensures { result.status ≡ status }
{
    Shown {
        status,
        seen: Seen::nothing(alloc),
        end: None,
    }
}

// Tells why nothing is replayed, or notes it if programs are to be told of it at the end.
fn refused<'a, W: Write>(
    stage: Stage<'_, 'a>,
    fault: Fault<'a>,
    output: &mut W,
) -> io::Result<Shown<'a>>
    ensures { IfOk result (λ shown. shown.status ≤ 4) }
{
    if stage.request.is_json {
        return Ok(Shown {
            status: 0,
            seen: Seen::nothing(stage.alloc),
            end: Some(Err(fault)),
        });
    }
    match print_outcome(Err(fault), output) {
        Ok(status) => Ok(shown_none(stage.alloc, status)),
        Err(error) => Err(error),
    }
}

// The program's status, and what watched the turns.
fn shown_of<'a>(
    alloc: Global,
    status: u8,
    viewer: Viewer<'_, '_>,
    end: Option<Result<Sums, Fault<'a>>>,
) -> io::Result<Shown<'a>>
    ensures { IfOk result (λ shown. shown.status ≡ status) }
{
    let seen = match viewer.end() {
        Ok(watching) => Seen::of(alloc, watching),
        Err(error) => Err(error),
    };
    match seen {
        Ok(seen) => Ok(Shown { status, seen, end }),
        Err(error) => Err(error),
    }
}

// Takes the turns of a record, and watches signals of the device, or tells programs what happens too.
fn look<'a, R: Read, W: Write, E: Write>(
    stage: Stage<'_, 'a>,
    subject: Subject,
    signals: &Signals<'_>,
    reader: &mut BufReader<R>,
    output: &mut W,
    errors: &mut E,
) -> io::Result<Shown<'a>>
    ensures { IfOk result (λ shown. shown.status ≤ 4) }
{
    let (alloc, request) = (stage.alloc, stage.request);
    let Ok(watching) = wish_of(&request.watched, request.is_json).watching(alloc, signals) else {
        subject.let_go();
        return refused(stage, Fault::Memory, output);
    };
    let viewer = Viewer::new(alloc, subject.number, watching, request.is_json);
    let replayed = Replayed {
        ready: subject.ready,
        viewer,
    };
    if request.is_json {
        return match replay_told(alloc, replayed, request, reader, output, errors) {
            Ok((end, viewer)) => shown_of(alloc, 0, viewer, Some(end)),
            Err(error) => Err(error),
        };
    }
    match replay_ready(alloc, replayed, request, reader, output, errors) {
        Ok((status, viewer)) => shown_of(alloc, status, viewer, None),
        Err(error) => Err(error),
    }
}

// Takes the turns of a record, and watches them. Names and places are those of what was checked.
fn watch_in<'a, R: Read, W: Write, E: Write>(
    stage: Stage<'_, 'a>,
    verified: &Verified,
    subject: Subject,
    reader: &mut BufReader<R>,
    output: &mut W,
    errors: &mut E,
) -> io::Result<Shown<'a>>
    ensures { IfOk result (λ shown. shown.status ≤ 4) }
{
    let wish = wish_of(&stage.request.watched, stage.request.is_json);
    match wish.signals(stage.alloc, verified.flat(), Some(subject.number)) {
        Ok(signals) => look(stage, subject, &signals, reader, output, errors),
        Err(unwatched) => {
            subject.let_go();
            let fault = if unwatched.tell(errors) {
                Fault::Usage
            } else {
                Fault::Memory
            };
            refused(stage, fault, output)
        }
    }
}

// Takes the turns of a record, and watches them, with a second copy of what was checked.
fn watch<'a, R: Read, W: Write, E: Write>(
    stage: Stage<'_, 'a>,
    subject: Subject,
    reader: &mut BufReader<R>,
    output: &mut W,
    errors: &mut E,
) -> io::Result<Shown<'a>>
    ensures { IfOk result (λ shown. shown.status ≤ 4) }
{
    match files_verified(stage.alloc, stage.app, stage.cert) {
        Ok(verified) => {
            let shown = watch_in(stage, &verified, subject, reader, output, errors);
            verified.let_go();
            shown
        }
        Err(fault) => {
            subject.let_go();
            refused(stage, fault, output)
        }
    }
}

// Takes the turns of a record.
fn replay_record<'a, R: Read, W: Write, E: Write>(
    stage: Stage<'_, 'a>,
    reader: &mut BufReader<R>,
    output: &mut W,
    errors: &mut E,
) -> io::Result<Shown<'a>>
    ensures { IfOk result (λ shown. shown.status ≤ 4) }
{
    let alloc = stage.alloc;
    match load_recorded(alloc, stage.app, stage.cert, stage.request, reader, errors) {
        Ok(subject) => {
            tell_shallow(alloc, subject.ready.verified(), errors);
            if is_plain(&stage.request.watched) && !stage.request.is_json {
                let replayed = Replayed {
                    ready: subject.ready,
                    viewer: Blind,
                };
                match replay_ready(alloc, replayed, stage.request, reader, output, errors) {
                    Ok((status, _)) => Ok(shown_none(alloc, status)),
                    Err(error) => Err(error),
                }
            } else {
                watch(stage, subject, reader, output, errors)
            }
        }
        Err(Fault::Line(at)) => refused(stage, Fault::Line(at), output),
        Err(fault) => {
            tell(alloc, &fault, Files::two(stage.app, stage.cert), errors);
            refused(stage, fault, output)
        }
    }
}

// Takes the turns of a record that is read.
fn replay_read<'a, R: Read, W: Write, E: Write>(
    stage: Stage<'_, 'a>,
    reader: &mut R,
    output: &mut W,
    errors: &mut E,
) -> io::Result<Shown<'a>>
    ensures { IfOk result (λ shown. shown.status ≤ 4) }
{
    match BufReader::new(stage.alloc, reader) {
        Ok(mut reader) => replay_record(stage, &mut reader, output, errors),
        Err(_) => refused(stage, Fault::Memory, output),
    }
}

// Takes the turns of the record in the file that is named, or on standard input where that is `-`.
fn replay_named<'a, S: Sources, I: Read, W: Write, E: Write>(
    stage: Stage<'_, 'a>,
    files: &S,
    input: &mut I,
    output: &mut W,
    errors: &mut E,
) -> io::Result<Shown<'a>>
    ensures { IfOk result (λ shown. shown.status ≤ 4) }
{
    let name = stage.request.record;
    if name == "-" {
        return replay_read(stage, input, output, errors);
    }
    match files.open(name) {
        Ok(mut reader) => replay_read(stage, &mut reader, output, errors),
        Err(_) => {
            let _ = writeln!(errors, "fbr: {name} could not be read");
            refused(stage, Fault::File(name), output)
        }
    }
}

// The report of turns that were taken to the end of their record, or of why they were not.
fn ended_told(stage: Stage<'_, '_>, end: Result<Sums, Fault<'_>>) -> Result<Told, AllocError>
    ensures { IfOk result (λ t. t.status ≤ 4) }
{
    let sums = match end {
        Ok(sums) => sums,
        Err(fault) => {
            let given = Files::two(stage.app, stage.cert);
            return refused_told(stage.alloc, "replay", fault, given_of(given));
        }
    };
    let mut report = Report::new(stage.alloc);
    report.sum("fired", sums.fired);
    report.sum("received", sums.received);
    report.sum("denied", sums.denied);
    report.sum("ran", sums.ran);
    report.sum("sent", sums.sent);
    report.sum("lost", sums.lost);
    match report.end_run("replay") {
        Ok(text) => Ok(Told { text, status: 0 }),
        Err(_) => Err(AllocError),
    }
}

// How turns went; or why what was kept of them could not be put into its file, if nothing else is at fault.
fn kept_too<'a>(
    end: Result<Sums, Fault<'a>>,
    kept: Result<(), Fault<'a>>,
) -> Result<Sums, Fault<'a>> {
    match end {
        Ok(sums) => match kept {
            Ok(()) => Ok(sums),
            Err(fault) => Err(fault),
        },
        Err(fault) => Err(fault),
    }
}

// Puts what was kept of the turns into the files that are named, and tells programs how they went if that is to be told at the end.
fn finish<'a, S: Sources, W: Write>(
    stage: Stage<'_, 'a>,
    files: &mut S,
    watched: &Watched<'a>,
    shown: Shown<'a>,
    output: &mut W,
) -> io::Result<u8>
    requires { shown.status ≤ 4 }
    ensures others { LeavesAll (S.same files.old) (kept_by (watching_of watched.now)) (S.contents files.old) (S.contents files.new) }
    ensures status { IfOk result (λ status. status ≤ 4) }
{
    let Shown { status, seen, end } = shown;
    let kept = put_kept(files, watched, &seen);
    match end {
        Some(end) => print_told(ended_told(stage, kept_too(end, kept)), "replay", output),
        None => match kept {
            Ok(()) => Ok(status),
            Err(fault) => print_outcome(Err(fault), output),
        },
    }
}

// What becomes of a replay that could not be told: programs are told if memory ran out.
fn failed<W: Write>(is_json: bool, error: io::Error, output: &mut W) -> io::Result<u8>
    ensures { IfOk result (λ status. status ≤ 4) }
{
    if is_json && error.kind() == ErrorKind::OutOfMemory {
        return print_memory("replay", output);
    }
    Err(error)
}

// Tells that what is kept would be written over what is read: the words are at fault.
fn overwritten<W: Write, E: Write>(
    alloc: Global,
    is_json: bool,
    output: &mut W,
    errors: &mut E,
) -> io::Result<u8>
    ensures told { IfOk result (λ status. OrJson is_json (Tells (refusal Usage) (W.contents output.old) (W.contents output.new) status)) }
    ensures status { IfOk result (λ status. status ≤ 4) }
{
    if is_json {
        return misused_told(alloc, "replay", OVERWRITTEN, output, errors);
    }
    misused(OVERWRITTEN, output, errors)
}

/// Takes the turns of a record again, by the application and the certificate that it was made with, and prints what its OUTPUTs write, and at the end what the turns
/// did in all. A record named `-` is standard input. Where the files or the record are refused, or the record is of others, that is written. Where turns are watched,
/// the lines of what has changed stand behind each dispatch, and what is kept of them is put into the files that are named. With `--json` an object for each arrival,
/// dispatch and turn takes the place of these lines, and a report that of the last. On `errors` people are told why.
pub fn replay<S: Sources, I: Read, W: Write, E: Write>(
    alloc: Global,
    request: Replay<'_>,
    files: &mut S,
    input: &mut I,
    output: &mut W,
    errors: &mut E,
) -> io::Result<u8>
    ensures told { IfOk result (λ status. TellsReplay (replaying_of request.entry) (S.same files.old) (W.contents output.old) (W.contents output.new) status) }
    ensures others { LeavesAll (S.same files.old) (kept_by (replaying_of request.entry).watched) (S.contents files.old) (S.contents files.new) }
    ensures status { IfOk result (λ status. status ≤ 4) }
{
    if overwrites(
        files,
        &request.watched,
        request.app,
        &[request.cert, request.record],
    ) {
        return overwritten(alloc, request.is_json, output, errors);
    }
    let app = read_app(alloc, files, request.app, request.meant);
    let cert = read_file(alloc, files, request.cert);
    let stage = Stage {
        alloc,
        app: &app,
        cert: &cert,
        request: &request,
    };
    match replay_named(stage, files, input, output, errors) {
        Ok(shown) => finish(stage, files, &request.watched, shown, output),
        Err(error) => failed(request.is_json, error, output),
    }
}
