//! A command: what its words ask for, and what becomes of it.

ghost use Rattle.std.specs.Prelude.{◌≡◌, ◌⊎◌, ◌<◌, ◌≤◌, length, map, IfOk, IfSome};
ghost use Rattle.fbr_files.specs.declared.fault.Fault.TheVariants.{Memory};
ghost use Rattle.fbr_files.specs.Outcomes.{Tells, TellsUsage, refusal};
ghost use Rattle.fbr_files.specs.Writing.{LeavesAll};
ghost use Rattle.fbr_words.specs.Program.{Order, request_of, written_by, written_for, often_of, IsMisuse};
ghost use Rattle.fbr_words.specs.Requests.{asked_of};
ghost use Rattle.fbr_check.specs.Verdicts.{TellsInput};
ghost use Rattle.fbr.specs.Answers.{Answers, AnswersOrder};

use crate::order::follow;
use fbr_files::Sources;
use fbr_runs::{play, replay, serve, sim};
use fbr_seals::make_key;
use fbr_static::{bound, check, check_input, draw, explain, pack, tell_misread};
use fbr_time::time;
use fbr_words::{Request, read_words};
use std::io;
use std::io::{Read, Write};
use std::net::Net;
use std::random::RandomSource;
use std::rt::Clock;

/// Does what is asked for.
pub fn answer<
    'a,
    R: AllocGlobal + Clock + Net + RandomSource,
    S: Sources,
    I: Read,
    W: Write,
    E: Write,
>(
    rt: &R,
    request: Request<'a>,
    files: &mut S,
    input: &mut I,
    output: &mut W,
    errors: &mut E,
) -> io::Result<u8>
    requires { IfSome (often_of (asked_of request)) (λ n. 1 ≤ n) }
    ensures answers { IfOk result (λ status. Answers (asked_of request.entry) (S.same files.old) (S.contents files.old) (S.contents files.new) (I.remaining input.old) (W.contents output.old) (W.contents output.new) status) }
    ensures others { LeavesAll (S.same files.old) (written_by (asked_of request.entry)) (S.contents files.old) (S.contents files.new) }
    ensures status { IfOk result (λ status. status ≤ 4) }
{
    let alloc = rt.alloc();
    match request {
        Request::Bound(request) => bound(alloc, request, files, output, errors),
        Request::Check(request) => check(alloc, request, files, output, errors),
        Request::Sim(request) => sim(alloc, request, files, input, output, errors),
        Request::Play(request) => play(alloc, request, files, output, errors),
        Request::Explain(request) => explain(alloc, request, files, output),
        Request::Draw(request) => draw(alloc, request, files, output, errors),
        Request::Serve(request) => serve(rt, request, files, output, errors),
        Request::Replay(request) => replay(alloc, request, files, input, output, errors),
        Request::Pack(request) => pack(alloc, request, files, output, errors),
        Request::Time(request) => time(alloc, request, files, output, errors),
        Request::Key(state) => make_key(rt, state, files, output, errors),
    }
}

// Reads what the words ask for, and does it.
fn run_words<
    'a,
    R: AllocGlobal + Clock + Net + RandomSource,
    S: Sources,
    I: Read,
    W: Write,
    E: Write,
>(
    rt: &R,
    words: &'a [&'a str],
    files: &mut S,
    input: &mut I,
    output: &mut W,
    errors: &mut E,
) -> io::Result<u8>
    ensures answers { (q : Order) → request_of (map (λ word. word.now) words.now) ≡ Some q
        → IfOk result (λ status. AnswersOrder q (S.same files.old) (S.contents files.old) (S.contents files.new) (I.remaining input.old) (W.contents output.old) (W.contents output.new) status ⊎ Tells (refusal Memory) (W.contents output.old) (W.contents output.new) status) }
    ensures usage { IsMisuse (map (λ word. word.now) words.now) → IfOk result (λ status. TellsUsage (W.contents output.old) (W.contents output.new) status) }
    ensures others { LeavesAll (S.same files.old) (written_for (request_of (map (λ word. word.now) words.now))) (S.contents files.old) (S.contents files.new) }
    ensures status { IfOk result (λ status. status ≤ 4) }
{
    match read_words(rt.alloc(), words) {
        Ok(order) => follow(rt, order, files, input, output, errors),
        Err(misread) => tell_misread(misread, output, errors),
    }
}

/// Does what the words ask for, of which the first is the program's own, and gives the status that the program ends with:
/// 0 done, 1 the certificate does not fit or there is none, 2 a text or the words are at fault, 3 a file or the output failed, 4 memory ran out.
///
/// Without words, `input` holds an application up to the first line that is exactly `====`, and then its certificate. With `sim` it holds a script.
/// Each fault is told by one line on `output`: `refused`, its code, and its place where there is one. With `explain` more is written behind that line,
/// for people, and with `draw` a graph; what they write is not said here, nor what people are told on `errors`.
pub fn command<
    'a,
    R: AllocGlobal + Clock + Net + RandomSource,
    S: Sources,
    I: Read,
    W: Write,
    E: Write,
>(rt: &R, words: &'a [&'a str], files: &mut S, input: &mut I, output: &mut W, errors: &mut E) -> u8
    ensures status { result ≤ 4 }
    // Unless the writer fails, one outcome is told and nothing else: without words that of the input,
    ensures input { length words.now < 2 → TellsInput (I.remaining input.old) (W.contents output.old) (W.contents output.new) result ⊎ (result ≡ 3) }
    // with those that ask for something what answers it, or that memory ran out,
    ensures answers { (q : Order) → 2 ≤ length words.now → request_of (map (λ word. word.now) words.now) ≡ Some q
        → (AnswersOrder q (S.same files.old) (S.contents files.old) (S.contents files.new) (I.remaining input.old) (W.contents output.old) (W.contents output.new) result ⊎ Tells (refusal Memory) (W.contents output.old) (W.contents output.new) result) ⊎ (result ≡ 3) }
    // and that they are at fault where they ask for nothing, and for neither help nor the version.
    ensures usage { 2 ≤ length words.now → IsMisuse (map (λ word. word.now) words.now)
        → TellsUsage (W.contents output.old) (W.contents output.new) result ⊎ (result ≡ 3) }
    // Whatever becomes of it, files hold what they held, but for those that the words name to be written.
    ensures still { length words.now < 2 → S.contents files.new ≡ S.contents files.old }
    ensures others { 2 ≤ length words.now → LeavesAll (S.same files.old) (written_for (request_of (map (λ word. word.now) words.now))) (S.contents files.old) (S.contents files.new) }
{
    if words.len() < 2 {
        return check_input(rt.alloc(), input, output).unwrap_or(3);
    }
    run_words(rt, words, files, input, output, errors).unwrap_or(3)
}
