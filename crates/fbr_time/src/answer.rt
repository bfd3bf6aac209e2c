//! `fbr time`.

ghost use Rattle.std.specs.Prelude.{◌≤◌, IfOk};
ghost use Rattle.fbr_files.specs.Outcomes.{Tells, refusal};
ghost use Rattle.fbr_words.specs.Requests.{timing_of};
ghost use Rattle.fbr_static.specs.Tellings.{OrJson};
ghost use Rattle.fbr_time.specs.Timings.{TellsTime};

use fb_verified::Verified;
use fbr_check::files_verified;
use fbr_files::{Fault, FileText, Sources, print_outcome, read_app, read_file};
use fbr_static::{Files, given_of, print_told, refused, tell};
use fbr_timing::{fault_of, text_of};
use fbr_words::Time;
use std::alloc::Global;
use std::io;
use std::io::Write;

// Tells a fault, as a command tells faults.
fn refuse<W: Write>(
    alloc: Global,
    fault: Fault<'_>,
    read: Files<'_, '_>,
    is_json: bool,
    output: &mut W,
) -> io::Result<u8>
    ensures told { IfOk result (λ status. OrJson is_json (Tells (refusal fault.entry) (W.contents output.old) (W.contents output.new) status)) }
    ensures status { IfOk result (λ status. status ≤ 4) }
{
    if is_json {
        let told = refused(alloc, "time", fault, given_of(read));
        return print_told(told, "time", output);
    }
    print_outcome(Err(fault), output)
}

// Prints a text to its end.
fn print<W: Write>(text: String, output: &mut W) -> io::Result<u8>
    ensures status { IfOk result (λ status. status ≤ 4) }
{
    let written = output.write_all(text.as_bytes());
    drop(text);
    match written {
        Ok(()) => Ok(0),
        Err(error) => Err(error),
    }
}

// A system whose certificate fits, and what is asked of it.
#[derive(Clone, Copy)]
struct Accepted<'a, 'b, 'f> {
    alloc: Global,
    request: Time<'b>,
    verified: &'a Verified,
    read: Files<'a, 'f>,
}

// Prints what a system takes, at the prices of a file or without.
fn tell_at<'b, S: Sources, W: Write, E: Write>(
    accepted: Accepted<'_, 'b, '_>,
    files: &S,
    prices: Option<&'b FileText<'b>>,
    output: &mut W,
    errors: &mut E,
) -> io::Result<u8>
    ensures status { IfOk result (λ status. status ≤ 4) }
{
    let alloc = accepted.alloc;
    let request = accepted.request;
    match text_of(alloc, files, accepted.verified, prices, request) {
        Ok(text) => print(text, output),
        Err(halt) => {
            let fault = fault_of(alloc, halt, errors);
            refuse(alloc, fault, accepted.read, request.is_json, output)
        }
    }
}

// Prints what a system takes.
fn tell_times<S: Sources, W: Write, E: Write>(
    accepted: Accepted<'_, '_, '_>,
    files: &S,
    output: &mut W,
    errors: &mut E,
) -> io::Result<u8>
    ensures status { IfOk result (λ status. status ≤ 4) }
{
    let Some(name) = accepted.request.prices else {
        return tell_at(accepted, files, None, output, errors);
    };
    let prices = read_file(accepted.alloc, files, name);
    let status = tell_at(accepted, files, Some(&prices), output, errors);
    drop(prices);
    status
}

/// Tells how many dispatches, how much work and, at measured prices, how much time each event at an arrival takes at most, and a way if one is asked for.
/// What is refused is refused as `check` refuses it. If the certificate fits, a file that is no list of prices, or a way that does not exist, is told as a fault of the words.
pub fn time<S: Sources, W: Write, E: Write>(
    alloc: Global,
    request: Time<'_>,
    files: &S,
    output: &mut W,
    errors: &mut E,
) -> io::Result<u8>
    ensures told { IfOk result (λ status. OrJson request.entry.is_json (TellsTime (timing_of request.entry) (S.contents files.now) (W.contents output.old) (W.contents output.new) status)) }
    ensures status { IfOk result (λ status. status ≤ 4) }
{
    let app = read_app(alloc, files, request.app, request.meant);
    let cert = read_file(alloc, files, request.cert);
    let read = Files::two(&app, &cert);
    match files_verified(alloc, &app, &cert) {
        Ok(verified) => {
            let accepted = Accepted {
                alloc,
                request,
                verified: &verified,
                read,
            };
            let status = tell_times(accepted, files, output, errors);
            verified.let_go();
            status
        }
        Err(fault) => {
            tell(alloc, &fault, read, errors);
            refuse(alloc, fault, read, request.is_json, output)
        }
    }
}
