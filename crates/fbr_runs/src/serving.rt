//! `fbr serve`.

ghost use Rattle.std.specs.Prelude.{◌≡◌, ◌≤◌, ◌++◌, IfErr, IfOk, MatchResult, option_map};
ghost use Rattle.fbr_files.specs.Outcomes.{Tells, refusal};
ghost use Rattle.fbr_files.specs.Reading.{held_by};
ghost use Rattle.fbr_files.specs.Writing.{Holdings, LeavesAll, LeavesAllBut};
ghost use Rattle.fbr_words.specs.Program.{boot_file, if_named, state_file};
ghost use Rattle.fbr_words.specs.Requests.{service_of};
ghost use Rattle.fbr_serve.specs.Serving.{HasNoRecord, HasNoSeals, IsFilesReady, TakesBoot, TakesSeals, seals_of};
ghost use Rattle.fbr_runs.specs.Running.{TellsServed};

use fb_device::Ready;
use fb_record::{Recorder, put_head};
use fbr_files::{Fault, FileText, Sources, print_outcome, read_app, read_file};
use fbr_seals::{Seals, open_seals};
use fbr_serve::{load_device, serve_ready, take_boot};
use fbr_static::{Files, tell};
use fbr_tell::tell_shallow;
use fbr_words::{Guard, Serve};
use std::alloc::Global;
use std::io;
use std::io::Write;
use std::net::Net;
use std::rt::Clock;

// What people are told where there is no boot.
const NO_BOOT: &str =
    "fbr: the boot file has to hold a number below 4294967295, and to be writable: put one there, larger than each boot so far";

// Tells that there is no boot, and people too.
fn refuse_boot<W: Write, E: Write>(
    fault: Fault<'_>,
    output: &mut W,
    errors: &mut E,
) -> io::Result<u8>
    ensures told { IfOk result (λ status. Tells (refusal fault.entry) (W.contents output.old) (W.contents output.new) status) }
    ensures status { IfOk result (λ status. status ≤ 4) }
{
    if let Fault::File(_) = &fault {
        let _ = writeln!(errors, "{NO_BOOT}");
    }
    print_outcome(Err(fault), output)
}

// What people are told where a record cannot be begun.
const NO_RECORD: &str =
    "fbr: the record has to be a new file that can be written, and nothing is overwritten: name another, as one with the time in it";

// Tells that there is no record, and people too.
fn refuse_record<W: Write, E: Write>(
    fault: Fault<'_>,
    output: &mut W,
    errors: &mut E,
) -> io::Result<u8>
    ensures told { IfOk result (λ status. Tells (refusal fault.entry) (W.contents output.old) (W.contents output.new) status) }
    ensures status { IfOk result (λ status. status ≤ 4) }
{
    if let Fault::File(_) = &fault {
        let _ = writeln!(errors, "{NO_RECORD}");
    }
    print_outcome(Err(fault), output)
}

// Why a record cannot be begun, by the file that was to hold it.
fn unrecorded<'a>(recorded: Option<&'a str>) -> Fault<'a>
    ensures { HasNoRecord (option_map (λ name. name.now) recorded.entry) result }
{
    match recorded {
        Some(name) => Fault::File(name),
        None => Fault::File("-"),
    }
}

// Writes the first line of a record, where there is one, and answers whether that was done.
fn begin_record<F: Write>(
    alloc: Global,
    app: &FileText<'_>,
    cert: &FileText<'_>,
    serve: &Serve<'_>,
    boot: u32,
    stream: &mut F,
) -> bool {
    if serve.life.record.is_none() {
        return true;
    }
    match (app.text(), cert.text()) {
        (Ok(app), Ok(cert)) => put_head(alloc, serve.device, boot, app, cert, stream).is_ok(),
        _ => false,
    }
}

// Makes the file of a record, where there is to be one, and writes its first line; or says why not.
fn open_record<'a, S: Sources>(
    alloc: Global,
    app: &FileText<'a>,
    cert: &FileText<'a>,
    serve: &Serve<'a>,
    boot: u32,
    files: &mut S,
) -> Result<Recorder<S::Writer>, Fault<'a>>
    ensures others { LeavesAllBut (S.same files.old) (service_of serve.now).life.recorded (S.contents files.old) (S.contents files.new) }
    ensures names { S.same files.new ≡ S.same files.old }
    ensures refused { IfErr result (HasNoRecord (service_of serve.now).life.recorded) }
{
    let life = serve.life;
    match files.create(life.record, life.is_synced) {
        Ok(mut stream) => {
            if !begin_record(alloc, app, cert, serve, boot, &mut stream) {
                return Err(unrecorded(life.record));
            }
            Recorder::new(alloc, stream).map_err(|_| Fault::Memory)
        }
        Err(_) => Err(unrecorded(life.record)),
    }
}

// The seals of a device, where it is to have some; or why there are none.
fn open_guard<'a, S: Sources, E: Write>(
    alloc: Global,
    serve: &Serve<'a>,
    files: &mut S,
    errors: &mut E,
) -> Result<Option<Seals<S::Keeper>>, Fault<'a>>
    ensures taken { MatchResult result (λ seals. TakesSeals (service_of serve.now).guard (S.contents files.old) (S.contents files.new) (option_map (seals_of S.Keeper.held) seals)) (HasNoSeals (service_of serve.now).guard) }
    ensures others { LeavesAllBut (S.same files.old) (state_file (service_of serve.now).guard) (S.contents files.old) (S.contents files.new) }
    ensures names { S.same files.new ≡ S.same files.old }
{
    match serve.guard {
        Guard::Unsealed => Ok(None),
        Guard::Sealed(sealing) => {
            match open_seals(alloc, files, sealing, &serve.network.peers, errors) {
                Ok(seals) => Ok(Some(seals)),
                Err(fault) => Err(fault),
            }
        }
    }
}

// Takes the seals of a device that was loaded, begins its record, and takes its turns; or tells why there are no seals, or is no record.
fn serve_loaded<R: AllocGlobal + Clock + Net, S: Sources, W: Write, E: Write>(
    rt: &R,
    ready: Ready,
    app: &FileText<'_>,
    cert: &FileText<'_>,
    request: &Serve<'_>,
    boot: u32,
    files: &mut S,
    output: &mut W,
    errors: &mut E,
) -> io::Result<u8>
    ensures told { (before : Holdings) → TakesBoot (service_of request.now).life.boot before (S.contents files.old) boot → IsFilesReady (service_of request.now) boot (held_by (service_of request.now).meant (before request.now.app.now)) (before request.now.cert.now) ready
        → IfOk result (λ status. TellsServed (service_of request.now) (S.same files.old) before (S.contents files.new) (W.contents output.old) (W.contents output.new) status) }
    ensures others { LeavesAll (S.same files.old) (if_named (state_file (service_of request.now).guard) ++ if_named (service_of request.now).life.recorded) (S.contents files.old) (S.contents files.new) }
    ensures status { IfOk result (λ status. status ≤ 4) }
{
    let alloc = rt.alloc();
    let seals = match open_guard(alloc, request, files, errors) {
        Ok(seals) => seals,
        Err(fault) => {
            ready.start().let_go();
            return print_outcome(Err(fault), output);
        }
    };
    match open_record(alloc, app, cert, request, boot, files) {
        Ok(recorder) => serve_ready(rt, ready, request, seals, output, errors, recorder),
        Err(fault) => {
            ready.start().let_go();
            refuse_record(fault, output, errors)
        }
    }
}

/// Loads the device that is asked for out of two files, takes its turns over UDP, and prints what its OUTPUTs write, and at the end what the turns did in all.
/// Where there is no boot, the files are refused, the device is unknown or the port is taken, that is written and nothing else; on `errors` people are told
/// of a fault of the files, and what the device does. The file of the boot gets the next one before anything is sent, so does the state file, and the record is a
/// new file.
pub fn serve<R: AllocGlobal + Clock + Net, S: Sources, W: Write, E: Write>(
    rt: &R,
    request: Serve<'_>,
    files: &mut S,
    output: &mut W,
    errors: &mut E,
) -> io::Result<u8>
    ensures told { IfOk result (λ status. TellsServed (service_of request.entry) (S.same files.old) (S.contents files.old) (S.contents files.new) (W.contents output.old) (W.contents output.new) status) }
    ensures others { LeavesAll (S.same files.old) (if_named (boot_file (service_of request.entry).life.boot) ++ (if_named (state_file (service_of request.entry).guard) ++ if_named (service_of request.entry).life.recorded)) (S.contents files.old) (S.contents files.new) }
    ensures status { IfOk result (λ status. status ≤ 4) }
{
    let alloc = rt.alloc();
    let app = read_app(alloc, files, request.app, request.meant);
    let cert = read_file(alloc, files, request.cert);
    let boot = match take_boot(alloc, files, request.life.boot) {
        Ok(boot) => boot,
        Err(fault) => return refuse_boot(fault, output, errors),
    };
    match load_device(alloc, &app, &cert, &request, boot) {
        Ok(ready) => {
            tell_shallow(alloc, ready.verified(), errors);
            serve_loaded(
                rt, ready, &app, &cert, &request, boot, files, output, errors,
            )
        }
        Err(fault) => {
            tell(alloc, &fault, Files::two(&app, &cert), errors);
            print_outcome(Err(fault), output)
        }
    }
}
