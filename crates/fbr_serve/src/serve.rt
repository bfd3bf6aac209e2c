//! Runs a device of two files over UDP.

ghost use Rattle.std.specs.Prelude.{◌≡◌, ◌≤◌, ℕ, List, Option, IfOk, MatchResult, if◌then◌else◌, option_map};
ghost use Rattle.fbr_files.specs.Reading.{IsFile, held_by};
ghost use Rattle.fbr_files.specs.Writing.{Holdings};
ghost use Rattle.fbr_words.specs.Requests.{service_of};
ghost use Rattle.fb_device.specs.Loads.{IsLoaded};
ghost use Rattle.fbr_serve.specs.Serving.{IsTextsFault, IsTextsReady, IsFilesFault, IsFilesReady, TakesBoot, TakesSeals, TellsBy, TellsStop, TellsDevice, TellsServe, seals_of};

use crate::notes::Notes;
use crate::sealed::serve_sealed;
use crate::timer::SystemTimer;
use crate::turns::{Ran, serve_on};
use fb_device::{Device, Ready, Refusal as LoadRefusal, load_boot};
use fb_faults::Refusal;
use fb_link::UdpLink;
use fb_record::Recorder;
use fb_wire::Stamp;
use fbr_files::{Fault, FileText, Keep, print_outcome};
use fbr_notices::{Shapes, Stop, Sums, Teller};
use fbr_seals::Seals;
use fbr_words::{Guard, Serve};
use std::alloc::Global;
use std::io;
use std::io::Write;
use std::net::{Net, SocketAddr};
use std::rt::Clock;

/// The device of this name in two texts, with its boot.
pub(crate) fn load_named<'a>(
    alloc: Global,
    app: &str,
    cert: &str,
    device: &str,
    boot: u32,
) -> Result<Ready, Fault<'a>>
    ensures { MatchResult result (IsLoaded app.now cert.now device.now 1 (record { boot = boot; sequence = 1 })) (IsTextsFault app.now cert.now device.now) }
{
    match load_boot(alloc, app, cert, device, 1, Stamp { boot, sequence: 1 }) {
        Ok(ready) => Ok(ready),
        Err(LoadRefusal::Checked(Refusal::OutOfMemory)) => Err(Fault::Memory),
        Err(LoadRefusal::Checked(refusal)) => Err(Fault::Refused(refusal)),
        Err(LoadRefusal::NoDevice(name)) => Err(Fault::Device(name)),
        Err(LoadRefusal::Limit) => unreachable!(),
    }
}

// The device of two texts that is asked for.
fn loaded_texts<'a>(
    alloc: Global,
    app: &str,
    cert: &str,
    serve: &Serve<'a>,
    boot: u32,
) -> Result<Ready, Fault<'a>>
    ensures { MatchResult result (IsTextsReady (service_of serve.now) boot app.now cert.now) (IsTextsFault app.now cert.now serve.now.device.now) }
{
    load_named(alloc, app, cert, serve.device, boot)
}

/// The device that is asked for of two files that were read, with its boot.
pub fn load_device<'a>(
    alloc: Global,
    app: &FileText<'a>,
    cert: &FileText<'a>,
    serve: &Serve<'a>,
    boot: u32,
) -> Result<Ready, Fault<'a>>
    ensures { (held_app held_cert : Option (List ℕ)) → IsFile serve.now.app.now held_app app.now → IsFile serve.now.cert.now held_cert cert.now
        → MatchResult result (IsFilesReady (service_of serve.now) boot held_app held_cert) (IsFilesFault (service_of serve.now) held_app held_cert) }
{
    match app.text() {
        Ok(app) => match cert.text() {
            Ok(cert) => loaded_texts(alloc, app, cert, serve, boot),
            Err(fault) => Err(fault),
        },
        Err(fault) => Err(fault),
    }
}

// The program's status behind turns that came to sums: 3 where a line was lost.
fn status_of(is_lost: bool) -> u8
    ensures said { result ≡ (if is_lost then 3 else 0) }
    ensures most { result ≤ 4 }
{
    if is_lost { 3 } else { 0 }
}

/// Tells what the turns did in all, or why they ended early, and gives the program's status.
pub(crate) fn print_served<W: Write>(ran: Ran, output: &mut W) -> io::Result<u8>
    ensures told { IfOk result (λ status. TellsStop ran (W.contents output.old) (W.contents output.new) status) }
    ensures status { IfOk result (λ status. status ≤ 4) }
{
    match ran.end {
        Ok(sums) => {
            writeln!(output, "{sums}")?;
            Ok(status_of(ran.is_lost))
        }
        Err(Stop::LinkDown) => print_outcome(Err(Fault::LinkDown), output),
        Err(Stop::Output | Stop::Clock) => Ok(3),
    }
}

// Tells people that nothing is checked of what others send, where others reach the device.
fn tell_unchecked<E: Write>(serve: &Serve<'_>, errors: &mut E) {
    if let Guard::Unsealed = serve.guard {
        if !serve.network.bind.ip().is_loopback() {
            let _ = writeln!(
                errors,
                "fbr: others reach this address, and nothing is checked of what they send: --keys FILE --state FILE takes only what was sealed"
            );
        }
    }
}

/// Tells people that a device is ready, what is checked of datagrams, and what its certificate supposes of the network.
pub(crate) fn tell_ready<E: Write>(
    device: &Device,
    repeats: Option<u8>,
    serve: &Serve<'_>,
    peers: &[SocketAddr],
    errors: &mut E,
) {
    let (name, bind) = (device.name(), serve.network.bind);
    let _ = write!(errors, "fbr: {name} receives at {bind}");
    let senders = serve.network.senders.as_slice();
    let _ = if senders.is_empty() {
        write!(errors, " from anybody")
    } else {
        write!(errors, " from")
    };
    for sender in senders {
        let sender = *sender;
        let _ = write!(errors, " {sender}");
    }
    let _ = write!(errors, ", sends to");
    if peers.is_empty() {
        let _ = write!(errors, " nobody");
    }
    for peer in peers {
        let peer = *peer;
        let _ = write!(errors, " {peer}");
    }
    let _ = writeln!(errors, "");
    tell_unchecked(serve, errors);
    if let Some(repeats) = repeats {
        let _ = writeln!(
            errors,
            "fbr: the certificate supposes that no datagram of format 1 comes more than {repeats} times (REPEATS {repeats})"
        );
    }
}

/// Tells people why a device ended early, where it did.
pub(crate) fn tell_end<E: Write>(end: &Result<Sums, Stop>, errors: &mut E) {
    let _ = match end {
        Ok(_) => Ok(()),
        Err(Stop::LinkDown) => writeln!(errors, "fbr: a receive from the network failed"),
        Err(Stop::Output) => writeln!(errors, "fbr: the device ends, since a line was lost"),
        Err(Stop::Clock) => writeln!(errors, "fbr: the clock could not be read"),
    };
}

/// Tells people of datagrams that came from elsewhere.
pub(crate) fn tell_strangers<E: Write>(strangers: u64, errors: &mut E) {
    if strangers > 0 {
        let _ = writeln!(
            errors,
            "fbr: {strangers} datagrams were dropped, since their senders are not named by --from"
        );
    }
}

// Takes the turns of a device that has started; or tells that nothing can be bound to its port.
fn serve_device<R: Clock + Net, W: Write, E: Write, F: Write>(
    rt: &R,
    device: &mut Device,
    repeats: Option<u8>,
    serve: &Serve<'_>,
    output: &mut W,
    notes: &mut Notes<E, F>,
) -> io::Result<u8>
    ensures told { IfOk result (λ status. TellsDevice (service_of serve.now) device.old (W.contents output.old) (W.contents output.new) status) }
    ensures status { IfOk result (λ status. status ≤ 4) }
{
    let network = &serve.network;
    let (peers, senders) = (network.peers.as_slice(), network.senders.as_slice());
    match UdpLink::open_at(rt, network.bind, peers, senders) {
        Ok(mut link) => {
            tell_ready(device, repeats, serve, peers, &mut notes.errors);
            let mut timer = SystemTimer::of(rt);
            let ran = serve_on(&mut timer, device, &mut link, serve, output, notes);
            tell_strangers(link.strangers(), &mut notes.errors);
            tell_end(&ran.end, &mut notes.errors);
            print_served(ran, output)
        }
        Err(_) => print_outcome(Err(Fault::Socket(network.bind.port())), output),
    }
}

// Takes the turns of a device over sealed datagrams, or over bare ones.
fn serve_by<R: Clock + Net, K: Keep + Drop, W: Write, E: Write, F: Write>(
    rt: &R,
    device: &mut Device,
    repeats: Option<u8>,
    serve: &Serve<'_>,
    seals: Option<Seals<K>>,
    output: &mut W,
    notes: &mut Notes<E, F>,
) -> io::Result<u8>
    ensures told { IfOk result (λ status. TellsBy (service_of serve.now) (option_map (seals_of K.held) seals) device.old (W.contents output.old) (W.contents output.new) status) }
    ensures status { IfOk result (λ status. status ≤ 4) }
{
    match seals {
        Some(seals) => serve_sealed(rt, device, repeats, serve, seals, output, notes),
        None => serve_device(rt, device, repeats, serve, output, notes),
    }
}

/// Starts a device, takes its turns over UDP, and prints what its OUTPUTs write, and at the end what the turns did in all; or that nothing can be bound to its
/// port. With seals, what it sends is sealed, and what it takes was. On `errors` people are told what it does, and the recorder records what comes.
pub fn serve_ready<
    R: AllocGlobal + Clock + Net,
    K: Keep + Drop,
    W: Write,
    E: Write,
    F: Write + Drop,
>(
    rt: &R,
    ready: Ready,
    serve: &Serve<'_>,
    seals: Option<Seals<K>>,
    output: &mut W,
    errors: &mut E,
    recorder: Recorder<F>,
) -> io::Result<u8>
    ensures told { (before booted after : Holdings) (boot : ℕ) → TakesBoot (service_of serve.now).life.boot before booted boot → IsFilesReady (service_of serve.now) boot (held_by (service_of serve.now).meant (before serve.now.app.now)) (before serve.now.cert.now) ready
        → TakesSeals (service_of serve.now).guard booted after (option_map (seals_of K.held) seals) → IfOk result (λ status. TellsServe (service_of serve.now) before booted after (W.contents output.old) (W.contents output.new) status) }
    ensures status { IfOk result (λ status. status ≤ 4) }
{
    let repeats = ready.verified().certificate().repeats();
    let shapes = Shapes::of(rt.alloc(), ready.verified().flat());
    let mut device = ready.start();
    let mut notes = Notes {
        errors,
        people: Teller::new(serve.telling, shapes),
        recorder,
    };
    let status = serve_by(rt, &mut device, repeats, serve, seals, output, &mut notes);
    device.let_go();
    status
}
