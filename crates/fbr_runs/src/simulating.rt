//! `fbr sim`.

ghost use Rattle.std.specs.Prelude.{◌≡◌, ◌≤◌, IfOk};
ghost use Rattle.fbr_files.specs.Writing.{LeavesAll};
ghost use Rattle.fbr_words.specs.Program.{kept_by};
ghost use Rattle.fbr_words.specs.Requests.{simulating_of, watching_of};
ghost use Rattle.fbr_static.specs.Tellings.{OrJson};
ghost use Rattle.fbr_runs.specs.Running.{TellsSim};

use crate::kept::{OVERWRITTEN, is_plain, overwrites, put_kept, wish_of};
use crate::reporting::sim_json;
use fbr_check::files_verified;
use fbr_files::{Fault, Sources, print_outcome, read_app, read_file};
use fbr_scripts::{Simulated, run_watched};
use fbr_sim::{print_end, run_input};
use fbr_static::{Files, misused, tell};
use fbr_words::{Sim, Watched};
use std::alloc::Global;
use std::io;
use std::io::{Read, Write};

// The fault of a script by the status that it has, where it is one that people are not yet told of.
fn script_fault(told: &io::Result<u8>) -> Option<Fault<'static>> {
    match told {
        Ok(1 | 3) => Some(Fault::Input),
        _ => None,
    }
}

// The same of a script that was watched.
fn watched_fault(ran: &io::Result<Result<Simulated, Fault<'_>>>) -> Option<Fault<'static>> {
    match ran {
        Ok(Ok(simulated)) => simulated.fault(),
        _ => None,
    }
}

// Puts what was kept of a script into the files that are named, and tells how it ended.
fn finish<S: Sources, W: Write>(
    files: &mut S,
    watched: &Watched<'_>,
    ran: io::Result<Result<Simulated, Fault<'_>>>,
    output: &mut W,
) -> io::Result<u8>
    ensures others { LeavesAll (S.same files.old) (kept_by (watching_of watched.now)) (S.contents files.old) (S.contents files.new) }
    ensures status { IfOk result (λ status. status ≤ 4) }
{
    match ran {
        Ok(Ok(simulated)) => match put_kept(files, watched, &simulated.seen) {
            Ok(()) => print_end(simulated.end, output),
            Err(fault) => print_outcome(Err(fault), output),
        },
        Ok(Err(fault)) => print_outcome(Err(fault), output),
        Err(error) => Err(error),
    }
}

// Checks two files, and runs the script on standard input, as `sim` without `--json`.
fn sim_text<S: Sources, I: Read, W: Write, E: Write>(
    alloc: Global,
    request: Sim<'_>,
    files: &mut S,
    input: &mut I,
    output: &mut W,
    errors: &mut E,
) -> io::Result<u8>
    ensures told { IfOk result (λ status. TellsSim (simulating_of request.entry) (S.same files.old) (S.contents files.old) (I.remaining input.old) (W.contents output.old) (W.contents output.new) status) }
    ensures others { LeavesAll (S.same files.old) (kept_by (simulating_of request.entry).watched) (S.contents files.old) (S.contents files.new) }
    ensures status { IfOk result (λ status. status ≤ 4) }
{
    if overwrites(files, &request.watched, request.app, &[request.cert]) {
        return misused(OVERWRITTEN, output, errors);
    }
    let app = read_app(alloc, files, request.app, request.meant);
    let cert = read_file(alloc, files, request.cert);
    match files_verified(alloc, &app, &cert) {
        Ok(verified) => {
            if is_plain(&request.watched) {
                let told = run_input(alloc, verified, input, output, errors);
                if let Some(fault) = script_fault(&told) {
                    tell(alloc, &fault, Files::two(&app, &cert), errors);
                }
                return told;
            }
            let wish = wish_of(&request.watched, false);
            let ran = run_watched(alloc, verified, wish, input, output, errors);
            if let Some(fault) = watched_fault(&ran) {
                tell(alloc, &fault, Files::two(&app, &cert), errors);
            }
            finish(files, &request.watched, ran, output)
        }
        Err(fault) => {
            tell(alloc, &fault, Files::two(&app, &cert), errors);
            print_outcome(Err(fault), output)
        }
    }
}

/// Checks two files, and runs the script on standard input on the world of their system's devices, line by line. Each answer is a line, or with `--json` an object;
/// where the files are refused their outcome is written and nothing else. Where a run is watched, the lines of what has changed stand behind each answer, and what
/// is kept of it is put into the files that are named. On `errors` people are told what is at fault.
pub fn sim<S: Sources, I: Read, W: Write, E: Write>(
    alloc: Global,
    request: Sim<'_>,
    files: &mut S,
    input: &mut I,
    output: &mut W,
    errors: &mut E,
) -> io::Result<u8>
    ensures told { IfOk result (λ status. OrJson request.entry.is_json (TellsSim (simulating_of request.entry) (S.same files.old) (S.contents files.old) (I.remaining input.old) (W.contents output.old) (W.contents output.new) status)) }
    ensures others { LeavesAll (S.same files.old) (kept_by (simulating_of request.entry).watched) (S.contents files.old) (S.contents files.new) }
    ensures status { IfOk result (λ status. status ≤ 4) }
{
    if request.is_json {
        return sim_json(alloc, request, files, input, output, errors);
    }
    sim_text(alloc, request, files, input, output, errors)
}
