//! What is asked for of several texts: it is answered over the text that they are together, or a fault of one of them is told.

ghost use Rattle.std.specs.Prelude.{◌≡◌, ◌≤◌, ◌∷◌, [], true, List, map, IfOk, IfSome, string_bytes};
ghost use Rattle.clap.specs.Words.{Text};
ghost use Rattle.fbr_files.specs.Outcomes.{refusal};
ghost use Rattle.fbr_files.specs.Placed.{outcome_at};
ghost use Rattle.fbr_files.specs.Writing.{LeavesAll};
ghost use Rattle.fbr_files.specs.declared.fault.Fault.TheVariants.{Usage};
ghost use Rattle.fbr_texts.specs.Parts.{start_of};
ghost use Rattle.fbr_words.specs.Program.{app_of, often_of, written_by};
ghost use Rattle.fbr_words.specs.Requests.{asked_of, order_of};
ghost use Rattle.fbr.specs.Answers as answers;
ghost use Rattle.fbr.specs.Answers.{AnswersOrder, AnswersTogether, NamesWritten, TellsFirst, TellsOutcome};
ghost use Rattle.fbr.specs.Together.{IsJoined};

use crate::run::answer;
use crate::together::{Stopped, joined_of, typing_fault};
use fbr_files::{Fault, FileText, Sources, print_placed};
use fbr_runs::{OVERWRITTEN, is_read, overwrites};
use fbr_static::{clash_told, explain_placed, misused, named, print_told, refused};
use fbr_tell::{Given, Held, NamedFile, hint};
use fbr_texts::{Joined, Meant, Part};
use fbr_words::{Order, Request};
use std::alloc::Global;
use std::io;
use std::io::{Read, Write};
use std::net::Net;
use std::random::RandomSource;
use std::rt::Clock;
use std::slice::from_ref;

// Whether a request is for JSON.
fn is_json(request: &Request<'_>) -> bool
    ensures { result ≡ answers.json_of (asked_of request.now) }
{
    match request {
        Request::Bound(request) => request.is_json,
        Request::Check(request) => request.is_json,
        Request::Sim(request) => request.is_json,
        Request::Play(request) => request.is_json,
        Request::Explain(request) => request.is_json,
        Request::Draw(_) => false,
        Request::Serve(_) => false,
        Request::Replay(request) => request.is_json,
        Request::Pack(_) => false,
        Request::Time(request) => request.is_json,
        Request::Key(_) => false,
    }
}

// Whether an explanation is asked for.
fn explains(request: &Request<'_>) -> bool
    ensures { result ≡ answers.explains (asked_of request.now) }
{
    match request {
        Request::Bound(_) => false,
        Request::Check(_) => false,
        Request::Sim(_) => false,
        Request::Play(_) => false,
        Request::Explain(_) => true,
        Request::Draw(_) => false,
        Request::Serve(_) => false,
        Request::Replay(_) => false,
        Request::Pack(_) => false,
        Request::Time(_) => false,
        Request::Key(_) => false,
    }
}

// The word of a command that prints JSON.
fn word_of(request: &Request<'_>) -> &'static str {
    match request {
        Request::Bound(_) => "bound",
        Request::Sim(_) => "sim",
        Request::Play(_) => "play",
        Request::Explain(_) => "explain",
        Request::Replay(_) => "replay",
        Request::Time(_) => "time",
        _ => "check",
    }
}

// Whether all faults of the application's text are told.
fn wants_all(request: &Request<'_>) -> bool {
    match request {
        Request::Bound(request) => request.is_all,
        Request::Check(request) => request.is_all,
        Request::Explain(request) => request.is_all,
        _ => false,
    }
}

// Whether a file that is to be written is one of those whose block types stand before the application.
fn overwrites_one<S: Sources>(files: &S, request: &Request<'_>, name: &str, names: &[&str]) -> bool
    ensures { result ≡ true → NamesWritten (asked_of request.now) }
{
    match request {
        Request::Bound(request) => is_read(files, request.into, name, names),
        Request::Check(_) => false,
        Request::Sim(request) => overwrites(files, &request.watched, name, names),
        Request::Play(request) => {
            is_read(files, request.report, name, names)
                || overwrites(files, &request.watched, name, names)
        }
        Request::Explain(_) => false,
        Request::Draw(request) => is_read(files, request.into, name, names),
        Request::Serve(_) => false,
        Request::Replay(request) => overwrites(files, &request.watched, name, names),
        Request::Pack(request) => is_read(files, request.into, name, names),
        Request::Time(_) => false,
        Request::Key(_) => false,
    }
}

// Tells a fault of a text that is meant, in a line or a page.
fn tell_first<W: Write, E: Write>(
    alloc: Global,
    is_page: bool,
    fault: &Fault<'_>,
    given: Given<'_>,
    meant: Meant<'_>,
    output: &mut W,
    errors: &mut E,
) -> io::Result<u8>
    ensures told { IfOk result (λ status. TellsFirst is_page (outcome_at meant.entry.app.now (map start_of meant.entry.parts.now) fault.now) (W.contents output.old) (W.contents output.new) status) }
    ensures status { IfOk result (λ status. status ≤ 4) }
{
    if is_page {
        return explain_placed(alloc, fault, given, meant, output);
    }
    hint(alloc, fault, given, errors);
    print_placed(fault, meant, output)
}

// Tells a fault of a text that is meant, as a command tells faults.
fn refuse<W: Write, E: Write>(
    alloc: Global,
    request: &Request<'_>,
    fault: Fault<'_>,
    given: Given<'_>,
    meant: Meant<'_>,
    output: &mut W,
    errors: &mut E,
) -> io::Result<u8>
    ensures told { IfOk result (λ status. TellsOutcome (asked_of request.now) (outcome_at meant.entry.app.now (map start_of meant.entry.parts.now) fault.entry) (W.contents output.old) (W.contents output.new) status) }
    ensures status { IfOk result (λ status. status ≤ 4) }
{
    let is_page = explains(request);
    let given = Given {
        is_all: wants_all(request),
        ..given
    };
    if is_json(request) {
        let command = word_of(request);
        if !is_page {
            hint(alloc, &fault, given, errors);
        }
        return print_told(refused(alloc, command, fault, given), command, output);
    }
    tell_first(alloc, is_page, &fault, given, meant, output, errors)
}

// The file of a text that is meant, for those who tell people.
fn given_of<'b>(meant: Meant<'b>) -> Given<'b> {
    Given::of(NamedFile {
        name: meant.app,
        held: Held::Text(meant.text),
        meant: Some(meant),
    })
}

// What a file holds, where that is text.
fn text_in<'b>(file: &'b FileText<'b>) -> &'b str {
    match file.text() {
        Ok(text) => text,
        Err(_) => "",
    }
}

// The file at fault, for those who tell people: as a text that is meant, where it is one.
fn given_alone<'b>(file: &'b FileText<'b>, meant: Meant<'b>) -> Given<'b> {
    match file.text() {
        Ok(_) => given_of(meant),
        Err(_) => Given::of(named(file)),
    }
}

// A file, as the one part of what is meant.
#[derive(Drop)]
struct Alone<'a> {
    file: FileText<'a>,
    part: Part<'a>,
}

// Tells why a file is at fault.
fn refuse_alone<'b, W: Write, E: Write>(
    alloc: Global,
    request: &Request<'_>,
    fault: Fault<'_>,
    app: &'b str,
    alone: &'b Alone<'b>,
    output: &mut W,
    errors: &mut E,
) -> io::Result<u8>
    ensures told { IfOk result (λ status. TellsOutcome (asked_of request.now) (outcome_at app.now (start_of alone.now.part ∷ []) fault.entry) (W.contents output.old) (W.contents output.new) status) }
    ensures status { IfOk result (λ status. status ≤ 4) }
{
    let meant = Meant {
        app,
        text: text_in(&alone.file),
        parts: from_ref(&alone.part),
    };
    let given = given_alone(&alone.file, meant);
    refuse(alloc, request, fault, given, meant, output, errors)
}

// Tells which file is at fault, and why.
fn refuse_stopped<'a, W: Write, E: Write>(
    alloc: Global,
    request: &Request<'a>,
    stopped: Stopped<'a>,
    output: &mut W,
    errors: &mut E,
) -> io::Result<u8>
    ensures told { IfOk result (λ status. TellsOutcome (asked_of request.now) (outcome_at (app_of (asked_of request.now)) ((stopped.entry.file.name.now, 0) ∷ []) stopped.entry.fault) (W.contents output.old) (W.contents output.new) status) }
    ensures status { IfOk result (λ status. status ≤ 4) }
{
    let Stopped { fault, file } = stopped;
    let part = Part {
        name: file.name,
        start: 0,
    };
    let alone = Alone { file, part };
    let app = request.app();
    refuse_alone(alloc, request, fault, app, &alone, output, errors)
}

// Tells that a file would be written which is read.
fn refuse_words<W: Write, E: Write>(
    alloc: Global,
    request: &Request<'_>,
    output: &mut W,
    errors: &mut E,
) -> io::Result<u8>
    requires { NamesWritten (asked_of request.now) }
    ensures told { IfOk result (λ status. TellsOutcome (asked_of request.now) (refusal Usage) (W.contents output.old) (W.contents output.new) status) }
    ensures status { IfOk result (λ status. status ≤ 4) }
{
    if is_json(request) {
        let _ = writeln!(errors, "{OVERWRITTEN}");
        let command = word_of(request);
        return print_told(clash_told(alloc, command), command, output);
    }
    misused(OVERWRITTEN, output, errors)
}

// Answers over the text that files are together, if it is that of an application.
fn answer_joined<
    'b,
    R: AllocGlobal + Clock + Net + RandomSource,
    S: Sources,
    I: Read,
    W: Write,
    E: Write,
>(
    rt: &R,
    joined: &'b Joined<'b>,
    request: Request<'b>,
    files: &mut S,
    input: &mut I,
    output: &mut W,
    errors: &mut E,
) -> io::Result<u8>
    requires { IfSome (often_of (asked_of request)) (λ n. 1 ≤ n) }
    ensures answers { (names : List Text) → IsJoined (S.contents files.old) names (app_of (asked_of request.entry)) (string_bytes joined.now.text) (map start_of joined.now.parts.items)
        → IfOk result (λ status. AnswersTogether names (asked_of request.entry) (S.same files.old) (S.contents files.old) (S.contents files.new) (I.remaining input.old) (W.contents output.old) (W.contents output.new) status) }
    ensures others { LeavesAll (S.same files.old) (written_by (asked_of request.entry)) (S.contents files.old) (S.contents files.new) }
    ensures status { IfOk result (λ status. status ≤ 4) }
{
    let alloc = rt.alloc();
    let meant = Meant {
        app: request.app(),
        text: joined.text.as_str(),
        parts: joined.parts.as_slice(),
    };
    match typing_fault(alloc, meant.text) {
        Ok(()) => answer(rt, request.over(meant), files, input, output, errors),
        Err(fault) => {
            refuse(
                alloc,
                &request,
                fault,
                given_of(meant),
                meant,
                output,
                errors,
            )
        }
    }
}

// The same of a text that is let go at the end.
fn answer_owned<
    'a,
    R: AllocGlobal + Clock + Net + RandomSource,
    S: Sources,
    I: Read,
    W: Write,
    E: Write,
>(
    rt: &R,
    joined: Joined<'a>,
    request: Request<'a>,
    files: &mut S,
    input: &mut I,
    output: &mut W,
    errors: &mut E,
) -> io::Result<u8>
    requires { IfSome (often_of (asked_of request)) (λ n. 1 ≤ n) }
    ensures answers { (names : List Text) → IsJoined (S.contents files.old) names (app_of (asked_of request.entry)) (string_bytes joined.entry.text) (map start_of joined.entry.parts.items)
        → IfOk result (λ status. AnswersTogether names (asked_of request.entry) (S.same files.old) (S.contents files.old) (S.contents files.new) (I.remaining input.old) (W.contents output.old) (W.contents output.new) status) }
    ensures others { LeavesAll (S.same files.old) (written_by (asked_of request.entry)) (S.contents files.old) (S.contents files.new) }
    ensures status { IfOk result (λ status. status ≤ 4) }
{
    answer_joined(rt, &joined, request, files, input, output, errors)
}

// Answers over the text that files of block types and an application are together, where there is one.
fn answer_together<
    'a,
    R: AllocGlobal + Clock + Net + RandomSource,
    S: Sources,
    I: Read,
    W: Write,
    E: Write,
>(
    rt: &R,
    names: &[&'a str],
    request: Request<'a>,
    files: &mut S,
    input: &mut I,
    output: &mut W,
    errors: &mut E,
) -> io::Result<u8>
    requires { IfSome (often_of (asked_of request)) (λ n. 1 ≤ n) }
    ensures answers { IfOk result (λ status. AnswersTogether (map (λ name. name.now) names.now) (asked_of request.entry) (S.same files.old) (S.contents files.old) (S.contents files.new) (I.remaining input.old) (W.contents output.old) (W.contents output.new) status) }
    ensures others { LeavesAll (S.same files.old) (written_by (asked_of request.entry)) (S.contents files.old) (S.contents files.new) }
    ensures status { IfOk result (λ status. status ≤ 4) }
{
    let alloc = rt.alloc();
    match joined_of(alloc, files, names, request.app()) {
        Ok(joined) => answer_owned(rt, joined, request, files, input, output, errors),
        Err(stopped) => refuse_stopped(alloc, &request, stopped, output, errors),
    }
}

/// Does what is asked for, with block types of other files before the application, where some are named.
pub fn follow<
    'a,
    R: AllocGlobal + Clock + Net + RandomSource,
    S: Sources,
    I: Read,
    W: Write,
    E: Write,
>(
    rt: &R,
    order: Order<'a>,
    files: &mut S,
    input: &mut I,
    output: &mut W,
    errors: &mut E,
) -> io::Result<u8>
    requires { IfSome (often_of (asked_of order.request)) (λ n. 1 ≤ n) }
    ensures answers { IfOk result (λ status. AnswersOrder (order_of order.entry) (S.same files.old) (S.contents files.old) (S.contents files.new) (I.remaining input.old) (W.contents output.old) (W.contents output.new) status) }
    ensures others { LeavesAll (S.same files.old) (written_by (asked_of order.entry.request)) (S.contents files.old) (S.contents files.new) }
    ensures status { IfOk result (λ status. status ≤ 4) }
{
    let Order { texts, request } = order;
    match texts.as_slice() {
        [] => answer(rt, request, files, input, output, errors),
        [name, rest @ ..] => {
            if overwrites_one(files, &request, *name, rest) {
                return refuse_words(rt.alloc(), &request, output, errors);
            }
            answer_together(rt, texts.as_slice(), request, files, input, output, errors)
        }
    }
}
