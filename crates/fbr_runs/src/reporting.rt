//! `--json` of `sim`, `play` and `replay`: objects for programs, a line each. They are tested, and no contract says what stands in them.

ghost use Rattle.std.specs.Prelude.{◌≤◌, IfOk};
ghost use Rattle.fbr_files.specs.Writing.{LeavesAll};
ghost use Rattle.fbr_words.specs.Program.{a_play, kept_by, written_by};
ghost use Rattle.fbr_words.specs.Requests.{plays_of, simulating_of, watching_of};

use crate::kept::{OVERWRITTEN, overwrites, put_kept, wish_of};
use crate::playing::{NO_STORY, cert_in, outcome_of, overwrites_one, stories_in, stories_of};
use fb_verified::Verified;
use fbr_check::{files_verified, texts_verified};
use fbr_files::{Fault, FileText, Sources, read_app, read_file};
use fbr_find::read_wanted;
use fbr_json::Report;
use fbr_play::{Played, play_all};
use fbr_score::Score;
use fbr_scripts::{Simulated, run_watched};
use fbr_static::{Files, Told, clash_told, given_of, print_memory, print_told, refused, tell};
use fbr_words::{Bound, Play, Sim, Watched};
use std::alloc::{AllocError, Global};
use std::io;
use std::io::{ErrorKind, Read, Write};

/// The report of words that are at fault, of which people are told.
pub fn misused_told<W: Write, E: Write>(
    alloc: Global,
    command: &str,
    why: &str,
    output: &mut W,
    errors: &mut E,
) -> io::Result<u8>
    ensures status { IfOk result (λ status. status ≤ 4) }
{
    let _ = writeln!(errors, "{why}");
    print_told(clash_told(alloc, command), command, output)
}

// The report of a run that is refused, of which people are told as without `--json`.
fn refuse<W: Write, E: Write>(
    alloc: Global,
    command: &str,
    fault: Fault<'_>,
    given: Files<'_, '_>,
    output: &mut W,
    errors: &mut E,
) -> io::Result<u8>
    ensures status { IfOk result (λ status. status ≤ 4) }
{
    tell(alloc, &fault, given, errors);
    print_told(
        refused(alloc, command, fault, given_of(given)),
        command,
        output,
    )
}

// The report of a run that came to its end.
fn done(alloc: Global, command: &str) -> Result<Told, AllocError>
    ensures { IfOk result (λ t. t.status ≤ 4) }
{
    match Report::new(alloc).end_run(command) {
        Ok(text) => Ok(Told { text, status: 0 }),
        Err(_) => Err(AllocError),
    }
}

// Why a script that was watched was not run to its end, or what was kept of it could not be put into its file.
fn fault_of<'a, S: Sources>(
    files: &mut S,
    watched: &Watched<'a>,
    simulated: &Simulated,
) -> Option<Fault<'a>>
    ensures others { LeavesAll (S.same files.old) (kept_by (watching_of watched.now)) (S.contents files.old) (S.contents files.new) }
{
    let kept = put_kept(files, watched, &simulated.seen);
    match simulated.fault() {
        Some(fault) => Some(fault),
        None => kept.err(),
    }
}

/// Checks two files, and runs the script on standard input as `sim` does. Each answer and each change is an object on a line, and so is how it ended.
pub fn sim_json<S: Sources, I: Read, W: Write, E: Write>(
    alloc: Global,
    request: Sim<'_>,
    files: &mut S,
    input: &mut I,
    output: &mut W,
    errors: &mut E,
) -> io::Result<u8>
    ensures others { LeavesAll (S.same files.old) (kept_by (simulating_of request.entry).watched) (S.contents files.old) (S.contents files.new) }
    ensures status { IfOk result (λ status. status ≤ 4) }
{
    if overwrites(files, &request.watched, request.app, &[request.cert]) {
        return misused_told(alloc, "sim", OVERWRITTEN, output, errors);
    }
    let app = read_app(alloc, files, request.app, request.meant);
    let cert = read_file(alloc, files, request.cert);
    let given = Files::two(&app, &cert);
    match files_verified(alloc, &app, &cert) {
        Ok(verified) => {
            let wish = wish_of(&request.watched, true);
            match run_watched(alloc, verified, wish, input, output, errors)? {
                Ok(simulated) => match fault_of(files, &request.watched, &simulated) {
                    Some(fault) => refuse(alloc, "sim", fault, given, output, errors),
                    None => print_told(done(alloc, "sim"), "sim", output),
                },
                Err(fault) => print_told(
                    refused(alloc, "sim", fault, given_of(given)),
                    "sim",
                    output,
                ),
            }
        }
        Err(fault) => refuse(alloc, "sim", fault, given, output, errors),
    }
}

// The report of stories that were played to their end.
fn played_told(alloc: Global, score: Score) -> Result<Told, AllocError>
    ensures { IfOk result (λ t. t.status ≤ 4) }
{
    let status = score.status();
    let mut report = Report::new(alloc);
    report.counts(score.passed, score.failed);
    match report.end_stories(score.failed == 0, status) {
        Ok(text) => Ok(Told { text, status }),
        Err(_) => Err(AllocError),
    }
}

// What stories are played over: the text of an application, and what is asked for.
#[derive(Clone, Copy)]
struct Stage<'b, 'a> {
    alloc: Global,
    app: &'b FileText<'a>,
    request: &'b Play<'a>,
}

// Puts what was kept of stories into the files that are named, and writes the report of how they went.
fn finish<'a, S: Sources, W: Write>(
    stage: Stage<'_, 'a>,
    files: &mut S,
    played: Played<'a>,
    output: &mut W,
) -> io::Result<u8>
    ensures others { LeavesAll (S.same files.old) (written_by (a_play (plays_of stage.entry.request.now))) (S.contents files.old) (S.contents files.new) }
    ensures status { IfOk result (λ status. status ≤ 4) }
{
    let told = match outcome_of(files, stage.request, played) {
        Ok(score) => played_told(stage.alloc, score),
        Err(fault) => refused(stage.alloc, "play", fault, given_of(Files::one(stage.app))),
    };
    print_told(told, "play", output)
}

// Plays stories over what was verified. How sequences went, and what has changed, is written before the report.
fn play_verified<S: Sources, W: Write, E: Write>(
    stage: Stage<'_, '_>,
    verified: Verified,
    files: &mut S,
    output: &mut W,
    errors: &mut E,
) -> io::Result<u8>
    ensures others { LeavesAll (S.same files.old) (written_by (a_play (plays_of stage.entry.request.now))) (S.contents files.old) (S.contents files.new) }
    ensures status { IfOk result (λ status. status ≤ 4) }
{
    let mut page = Vec::new(stage.alloc);
    let stories = stories_of(stage.app, stage.request);
    match play_all(stage.alloc, verified, stories, files, &mut page, errors) {
        Ok(played) => {
            output.write_all(&page)?;
            finish(stage, files, played, output)
        }
        Err(error) => {
            if error.kind() == ErrorKind::OutOfMemory {
                print_memory("play", output)
            } else {
                Err(error)
            }
        }
    }
}

// Plays stories over an application and the certificate that is found, where there is one.
fn play_one<S: Sources, W: Write, E: Write>(
    alloc: Global,
    request: &Play<'_>,
    files: &mut S,
    output: &mut W,
    errors: &mut E,
) -> io::Result<u8>
    ensures others { LeavesAll (S.same files.old) (written_by (a_play (plays_of request.now))) (S.contents files.old) (S.contents files.new) }
    ensures status { IfOk result (λ status. status ≤ 4) }
{
    let wanted = read_wanted(alloc, files, Bound::least(request.app, request.meant, None));
    let verified = match wanted.text(alloc) {
        Ok(text) => match wanted.app.text() {
            Ok(app) => texts_verified(alloc, app, text.as_str()),
            Err(fault) => Err(fault),
        },
        Err(fault) => Err(fault),
    };
    match verified {
        Ok(verified) => {
            let stage = Stage {
                alloc,
                app: &wanted.app,
                request,
            };
            play_verified(stage, verified, files, output, errors)
        }
        Err(fault) => refuse(
            alloc,
            "play",
            fault,
            Files::one(&wanted.app),
            output,
            errors,
        ),
    }
}

// Plays stories over an application and its certificate, where it fits.
fn play_two<S: Sources, W: Write, E: Write>(
    alloc: Global,
    cert: &str,
    request: &Play<'_>,
    files: &mut S,
    output: &mut W,
    errors: &mut E,
) -> io::Result<u8>
    ensures others { LeavesAll (S.same files.old) (written_by (a_play (plays_of request.now))) (S.contents files.old) (S.contents files.new) }
    ensures status { IfOk result (λ status. status ≤ 4) }
{
    let app = read_app(alloc, files, request.app, request.meant);
    let cert = read_file(alloc, files, cert);
    match files_verified(alloc, &app, &cert) {
        Ok(verified) => {
            let stage = Stage {
                alloc,
                app: &app,
                request,
            };
            play_verified(stage, verified, files, output, errors)
        }
        Err(fault) => refuse(
            alloc,
            "play",
            fault,
            Files::two(&app, &cert),
            output,
            errors,
        ),
    }
}

/// Plays stories as `play` does. How each sequence went is an object on a line, each change that is watched too, and at the end how many passed and failed.
pub fn play_json<S: Sources, W: Write, E: Write>(
    alloc: Global,
    request: &Play<'_>,
    files: &mut S,
    output: &mut W,
    errors: &mut E,
) -> io::Result<u8>
    ensures others { LeavesAll (S.same files.old) (written_by (a_play (plays_of request.now))) (S.contents files.old) (S.contents files.new) }
    ensures status { IfOk result (λ status. status ≤ 4) }
{
    let named = request.files.as_slice();
    if stories_in(named).is_empty() {
        return misused_told(alloc, "play", NO_STORY, output, errors);
    }
    if overwrites_one(files, request) {
        return misused_told(alloc, "play", OVERWRITTEN, output, errors);
    }
    match cert_in(named) {
        Some(cert) => play_two(alloc, cert, request, files, output, errors),
        None => play_one(alloc, request, files, output, errors),
    }
}
