//! `fbr play`.

ghost use Rattle.std.specs.Prelude.{◌≡◌, ◌≤◌, false, true, IfOk, map, option_map};
ghost use Rattle.fbr_files.specs.declared.fault.Fault.TheVariants.{Memory};
ghost use Rattle.fbr_files.specs.Outcomes.{Tells, refusal};
ghost use Rattle.fbr_files.specs.Writing.{LeavesAll};
ghost use Rattle.fbr_words.specs.Program.{a_play, written_by};
ghost use Rattle.fbr_files.specs.Reading.{held_by};
ghost use Rattle.fbr_words.specs.Requests.{meant_of, plays_of};
ghost use Rattle.fbr_score.specs.Scores.{TellsStories};
ghost use Rattle.fbr_runs.specs.Running as runs;
ghost use Rattle.fbr_static.specs.Tellings.{OrJson};
ghost use Rattle.fbr_runs.specs.Running.{ArePlayedApart, NamesOne, TellsFound, TellsPlayed, TellsPlays};

use crate::kept::{OVERWRITTEN, is_read, overwrites, put_kept, put_maybe, wish_of};
use crate::reporting::play_json;
use fbr_check::{files_verified, texts_verified};
use fbr_files::{Fault, FileText, Sources, print_outcome, read_app, read_file};
use fbr_find::read_wanted;
use fbr_play::{Played, Stories, play_all};
use fbr_score::{Score, print_end};
use fbr_static::{Files, misused, tell};
use fbr_watch::Seen;
use fbr_words::{Bound, Play};
use std::alloc::Global;
use std::io;
use std::io::{ErrorKind, Write};

/// What people are told where no story is named.
pub const NO_STORY: &str = "fbr: no story is named, and names of stories end in .story";

// Whether a file of this name is a story.
fn is_story(name: &str) -> bool
    ensures { result ≡ runs.is_story name.now }
{
    name.as_bytes().ends_with(b".story")
}

/// The file of the certificate, where one is named before the stories.
pub fn cert_in<'a>(files: &[&'a str]) -> Option<&'a str>
    ensures { option_map (λ name. name.now) result ≡ runs.cert_in (map (λ name. name.now) files.now) }
{
    match files {
        [name, ..] => if is_story(name) { None } else { Some(*name) },
        [] => None,
    }
}

/// The stories behind it.
pub fn stories_in<'b, 'a>(files: &'b [&'a str]) -> &'b [&'a str]
    ensures { map (λ name. name.now) result.now ≡ runs.stories_in (map (λ name. name.now) files.now) }
{
    match files {
        [name, rest @ ..] => if is_story(name) { files } else { rest },
        [] => files,
    }
}

/// Stories over the application that a file holds, with what is asked for beside them.
pub fn stories_of<'t, 'b, 'a>(app: &'t FileText<'_>, request: &'b Play<'a>) -> Stories<'t, 'b, 'a> {
    Stories {
        app: app.text().unwrap_or(""),
        names: stories_in(request.files.as_slice()),
        wish: wish_of(&request.watched, request.is_json),
        has_report: request.report.is_some(),
        is_json: request.is_json,
    }
}

/// Whether one of the files that are written is one that is read.
pub fn overwrites_one<S: Sources>(files: &S, request: &Play<'_>) -> bool
    ensures apart { result ≡ false → ArePlayedApart (S.same files.now) (plays_of request.now) }
    ensures named { result ≡ true → NamesOne (plays_of request.now) }
{
    let others = request.files.as_slice();
    if is_read(files, request.report, request.app, others) {
        return true;
    }
    overwrites(files, &request.watched, request.app, others)
}

// Puts a report and what was kept of stories into the files that are named, where they were played to their end; or says which file could not be written.
fn put_played<'a, S: Sources>(
    files: &mut S,
    request: &Play<'a>,
    report: &[u8],
    seen: &Seen,
) -> Result<(), Fault<'a>>
    ensures { LeavesAll (S.same files.old) (written_by (a_play (plays_of request.now))) (S.contents files.old) (S.contents files.new) }
{
    let told = put_maybe(files, request.report, report);
    let kept = put_kept(files, &request.watched, seen);
    told.and(kept)
}

/// How stories went, once what was kept of them is in its files, where they were played to their end.
pub fn outcome_of<'a, S: Sources>(
    files: &mut S,
    request: &Play<'a>,
    played: Played<'a>,
) -> Result<Score, Fault<'a>>
    ensures { LeavesAll (S.same files.old) (written_by (a_play (plays_of request.now))) (S.contents files.old) (S.contents files.new) }
{
    let Played {
        outcome,
        report,
        seen,
    } = played;
    match outcome {
        Ok(score) => match put_played(files, request, &report, &seen) {
            Ok(()) => Ok(score),
            Err(fault) => Err(fault),
        },
        Err(fault) => Err(fault),
    }
}

// Tells that there was no memory for what is told of stories, where an error says so.
fn spent<W: Write>(error: io::Error, output: &mut W) -> io::Result<u8>
    ensures told { IfOk result (λ status. Tells (refusal Memory) (W.contents output.old) (W.contents output.new) status) }
    ensures status { IfOk result (λ status. status ≤ 4) }
{
    if error.kind() == ErrorKind::OutOfMemory {
        print_outcome(Err(Fault::Memory), output)
    } else {
        Err(error)
    }
}

// Puts what was kept of stories into the files that are named, and tells how they went behind a page, which tells what came otherwise.
fn finish<'a, S: Sources, W: Write>(
    files: &mut S,
    request: &Play<'a>,
    played: Played<'a>,
    page: &mut Vec<u8>,
    output: &mut W,
) -> io::Result<u8>
    ensures told { IfOk result (λ status. TellsStories (W.contents output.old) (W.contents output.new) status) }
    ensures others { LeavesAll (S.same files.old) (written_by (a_play (plays_of request.now))) (S.contents files.old) (S.contents files.new) }
    ensures status { IfOk result (λ status. status ≤ 4) }
{
    let outcome = outcome_of(files, request, played);
    match print_end(outcome, page) {
        Ok(status) => {
            output.write_all(page)?;
            Ok(status)
        }
        Err(error) => spent(error, output),
    }
}

// Plays stories over an application and the certificate that is found, where there is one.
fn play_one<S: Sources, W: Write, E: Write>(
    alloc: Global,
    request: &Play<'_>,
    files: &mut S,
    output: &mut W,
    errors: &mut E,
) -> io::Result<u8>
    ensures told { IfOk result (λ status. TellsFound (W.contents output.old) (W.contents output.new) status) }
    ensures others { LeavesAll (S.same files.old) (written_by (a_play (plays_of request.now))) (S.contents files.old) (S.contents files.new) }
    ensures status { IfOk result (λ status. status ≤ 4) }
{
    let wanted = read_wanted(alloc, files, Bound::least(request.app, request.meant, None));
    let verified = match wanted.text(alloc) {
        Ok(text) => match wanted.app.text() {
            Ok(app) => texts_verified(alloc, app, text.as_str()),
            Err(fault) => Err(fault),
        },
        Err(fault) => Err(fault),
    };
    match verified {
        Ok(verified) => {
            let stories = stories_of(&wanted.app, request);
            let mut page = Vec::new(alloc);
            match play_all(alloc, verified, stories, files, &mut page, errors) {
                Ok(played) => finish(files, request, played, &mut page, output),
                Err(error) => spent(error, output),
            }
        }
        Err(fault) => {
            tell(alloc, &fault, Files::one(&wanted.app), errors);
            print_outcome(Err(fault), output)
        }
    }
}

// The files of an application and of its certificate.
#[derive(Clone, Copy)]
struct Both<'a> {
    app: &'a str,
    cert: &'a str,
}

// Plays stories over an application and its certificate, where it fits.
fn play_two<S: Sources, W: Write, E: Write>(
    alloc: Global,
    both: Both<'_>,
    request: &Play<'_>,
    files: &mut S,
    output: &mut W,
    errors: &mut E,
) -> io::Result<u8>
    ensures told { IfOk result (λ status. TellsPlayed both.entry.app.now both.entry.cert.now (held_by (meant_of request.now.meant) (S.contents files.old both.entry.app.now)) (S.contents files.old both.entry.cert.now) (W.contents output.old) (W.contents output.new) status) }
    ensures others { LeavesAll (S.same files.old) (written_by (a_play (plays_of request.now))) (S.contents files.old) (S.contents files.new) }
    ensures status { IfOk result (λ status. status ≤ 4) }
{
    let app = read_app(alloc, files, both.app, request.meant);
    let cert = read_file(alloc, files, both.cert);
    match files_verified(alloc, &app, &cert) {
        Ok(verified) => {
            let stories = stories_of(&app, request);
            let mut page = Vec::new(alloc);
            match play_all(alloc, verified, stories, files, &mut page, errors) {
                Ok(played) => finish(files, request, played, &mut page, output),
                Err(error) => spent(error, output),
            }
        }
        Err(fault) => {
            tell(alloc, &fault, Files::two(&app, &cert), errors);
            print_outcome(Err(fault), output)
        }
    }
}

// Plays stories as `play` without `--json`.
fn play_text<S: Sources, W: Write, E: Write>(
    alloc: Global,
    request: &Play<'_>,
    files: &mut S,
    output: &mut W,
    errors: &mut E,
) -> io::Result<u8>
    ensures told { IfOk result (λ status. TellsPlays (plays_of request.now) (S.same files.old) (S.contents files.old) (W.contents output.old) (W.contents output.new) status) }
    ensures others { LeavesAll (S.same files.old) (written_by (a_play (plays_of request.now))) (S.contents files.old) (S.contents files.new) }
    ensures status { IfOk result (λ status. status ≤ 4) }
{
    let named = request.files.as_slice();
    if stories_in(named).is_empty() {
        return misused(NO_STORY, output, errors);
    }
    if overwrites_one(files, request) {
        return misused(OVERWRITTEN, output, errors);
    }
    match cert_in(named) {
        Some(cert) => {
            let both = Both {
                app: request.app,
                cert,
            };
            play_two(alloc, both, request, files, output, errors)
        }
        None => play_one(alloc, request, files, output, errors),
    }
}

/// Plays stories over the application in a file, with the certificate of another, or with the one that is found: what came otherwise than a story says is
/// written, and at the end how many of their sequences passed and failed, or with `--json` one object that says so. A report, and what has changed, are put into
/// the files that are named for them. Where the files are refused, their outcome is written and nothing else; on `errors` people are told why.
pub fn play<S: Sources, W: Write, E: Write>(
    alloc: Global,
    request: Play<'_>,
    files: &mut S,
    output: &mut W,
    errors: &mut E,
) -> io::Result<u8>
    ensures told { IfOk result (λ status. OrJson request.entry.is_json (TellsPlays (plays_of request.entry) (S.same files.old) (S.contents files.old) (W.contents output.old) (W.contents output.new) status)) }
    ensures others { LeavesAll (S.same files.old) (written_by (a_play (plays_of request.entry))) (S.contents files.old) (S.contents files.new) }
    ensures status { IfOk result (λ status. status ≤ 4) }
{
    if request.is_json {
        return play_json(alloc, &request, files, output, errors);
    }
    play_text(alloc, &request, files, output, errors)
}
