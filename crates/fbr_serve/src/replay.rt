//! Takes the turns of a record again.

ghost use Rattle.std.specs.Prelude.{◌≡◌, ◌≤◌, ℕ, List, None, Option, Some, IfErr, IfOk, MatchOption};
ghost use Rattle.std.specs.Io.Buffered.{reader_remaining};
ghost use Rattle.fb_device_state.specs.Machines.{device_in, cert_in, machine_of};
ghost use Rattle.fb_record.specs.Records.{Entry as Coming, IsPlayable};
ghost use Rattle.fb_record.specs.Views as records;
ghost use Rattle.fbr_notices.specs.Sums.{TurnAt};
ghost use Rattle.fbr_serve.specs.Serving.{EndsTurn};
ghost use Rattle.fbr_serve.specs.Recording.{EndsTaken, Retaken, Retakes, entry_said, plays};

use crate::looking::{Look, look_turn};
use crate::notes::Notes;
use crate::printing::{When, flushed};
use crate::serve::{load_named, print_served};
use crate::turns::{Ran, Taken, take_turn};
use fb_device::{Device, Ready};
use fb_link::{MemoryLink, Plan};
use fb_numbers::words_of;
use fb_record::{Entry, Head, Recorder, is_digest, read_entry, read_head};
use fb_verified::Verified;
use fbr_files::{Fault, FileText, print_outcome};
use fbr_lines::{Next, next_line};
use fbr_notices::{Shapes, Stop, Sums, Teller};
use fbr_words::{Replay, Telling};
use std::alloc::{AllocError, Global};
use std::io;
use std::io::{BufReader, ErrorKind, Read, Write};

/// The most bytes of a line, its line feed counted: that of a turn has fewer.
const LONGEST: usize = 8_192;

// Why a line is no turn.
const TOO_LONG: &str = "this line has more than 8,192 bytes";

const NO_TEXT: &str = "this line is no UTF-8";

const NO_TURN: &str =
    "this line is no turn: 'turn MILLISECONDS', each datagram in hexadecimal digits, and 'down' if a receive failed";

/// Why the turns of a record are not taken to its end.
#[derive(Clone, Copy)]
enum Halt {
    /// The line of this number, counted from 1, says no turn.
    Line(usize),
    Memory,
    /// The record could not be read.
    Unreadable,
}

// A link that hands out what came in a turn, and takes what is sent.
fn link_of(alloc: Global, entry: Entry, room: usize) -> Result<MemoryLink, AllocError>
    ensures { IfOk result (λ m. m ≡ plays (records.entry_of entry) room) }
{
    let mut failing = Vec::new(alloc);
    if entry.is_down {
        failing.push(entry.datagrams.len() as u64 + 1)?;
    }
    let plan = Plan {
        receives: failing,
        sends: Vec::new(alloc),
    };
    MemoryLink::new(alloc, entry.datagrams, room, plan)
}

// How turns are told: whether lines begin with the clock, what looks at the device, and why the last line that was read is no turn, if it is none.
#[derive(Drop)]
struct View<V> {
    has_clock: bool,
    viewer: V,
    wrong: &'static str,
}

// Why a line is no turn that is none.
fn wrong_in(line: &[u8]) -> &'static str {
    if str::from_utf8(line).is_ok() {
        NO_TURN
    } else {
        NO_TEXT
    }
}

// Takes the turn that a record says.
fn take_entry<W: Write, E: Write, V: Look>(
    alloc: Global,
    device: &mut Device,
    entry: Entry,
    view: &mut View<V>,
    output: &mut W,
    notes: &mut Notes<E, io::Sink>,
) -> Result<Taken, AllocError>
    requires { IsPlayable (records.entry_of entry) }
    ensures taken { IfOk result (λ taken. (x : TurnAt) × Retakes (cert_in device.old) (device_in device.old) (machine_of device.old) (records.entry_of entry) x (machine_of device.new) × EndsTurn (device_in device.old) x.turn taken.end) }
    ensures unmoved { IfErr result (λ _. device.new ≡ device.old) }
    ensures same { (device.new.verified ≡ device.old.verified) × (device.new.number ≡ device.old.number) }
{
    let when = When {
        now: entry.now,
        is_told: view.has_clock,
    };
    let room = usize::from(device.resources());
    let mut link = link_of(alloc, entry, room)?;
    if view.viewer.is_blind() {
        return Ok(take_turn(device, &mut link, when, output, notes));
    }
    let viewer = &mut view.viewer;
    Ok(look_turn(device, &mut link, when, output, notes, viewer))
}

// Takes the turn that a line says.
fn take_line<W: Write, E: Write, V: Look>(
    alloc: Global,
    device: &mut Device,
    line: &[u8],
    view: &mut View<V>,
    output: &mut W,
    notes: &mut Notes<E, io::Sink>,
) -> Result<Option<Taken>, AllocError>
    ensures taken { IfOk result (λ found. MatchOption found ((entry_said line.now ≡ None) × (device.new ≡ device.old))
        (λ taken. (e : Coming) × (x : TurnAt) × (entry_said line.now ≡ Some e) × Retakes (cert_in device.old) (device_in device.old) (machine_of device.old) e x (machine_of device.new) × EndsTurn (device_in device.old) x.turn taken.end)) }
    ensures unmoved { IfErr result (λ _. device.new ≡ device.old) }
    ensures same { (device.new.verified ≡ device.old.verified) × (device.new.number ≡ device.old.number) }
{
    let Ok(text) = str::from_utf8(line) else {
        return Ok(None);
    };
    match read_entry(alloc, text)? {
        Some(entry) => Ok(Some(take_entry(alloc, device, entry, view, output, notes)?)),
        None => Ok(None),
    }
}

// Takes the turns of the lines behind the first, and gives what they did in all.
fn take_lines<R: Read, W: Write, E: Write, V: Look>(
    alloc: Global,
    device: &mut Device,
    view: &mut View<V>,
    reader: &mut BufReader<R>,
    output: &mut W,
    notes: &mut Notes<E, io::Sink>,
) -> Result<Ran, Halt>
    ensures taken { (all : List TurnAt) × (rest : Option (List ℕ)) × Retaken (cert_in device.old) (device_in device.old) (reader_remaining R.remaining reader.old) (machine_of device.old) all rest (machine_of device.new) × EndsTaken all rest result }
    ensures same { (device.new.verified ≡ device.old.verified) × (device.new.number ≡ device.old.number) }
{
    let mut line = Vec::new(alloc);
    let mut sums = Sums::none();
    let mut is_lost = false;
    for at in 2..usize::MAX {
        match next_line(reader, &mut line, LONGEST) {
            Next::Whole => {}
            Next::Last | Next::End => {
                let end = Ok(sums);
                return Ok(Ran { end, is_lost });
            }
            Next::TooLong => {
                view.wrong = TOO_LONG;
                return Err(Halt::Line(at));
            }
            Next::Memory => return Err(Halt::Memory),
            Next::Failed => return Err(Halt::Unreadable),
        }
        match take_line(alloc, device, &line, view, output, notes) {
            Ok(Some(taken)) => {
                is_lost = is_lost || taken.is_lost;
                match taken.end {
                    Ok(report) => sums = sums.with(report),
                    Err(stop) => {
                        let end = Err(stop);
                        return Ok(Ran { end, is_lost });
                    }
                }
            }
            Ok(None) => {
                view.wrong = wrong_in(line.as_slice());
                return Err(Halt::Line(at));
            }
            Err(_) => return Err(Halt::Memory),
        }
    }
    Err(Halt::Unreadable)
}

// Tells people what is wrong with the first line of a record.
fn refuse_head<'a, E: Write>(why: &str, errors: &mut E) -> Fault<'a> {
    let _ = writeln!(errors, "fbr: {why}");
    Fault::Line(1)
}

/// The device that a record is of, before it starts, and its number among those of its system.
#[derive(Drop)]
pub struct Subject {
    pub ready: Ready,
    pub number: u16,
}

impl Subject {
    /// Lets the device go.
    pub fn let_go(self) {
        self.ready.start().let_go();
    }
}

// The number of the device of this name, in which letter case has no meaning.
fn number_of(verified: &Verified, name: &str) -> u16 {
    for (number, device) in verified.flat().devices.iter().enumerate() {
        if device.name.as_str().eq_ignore_ascii_case(name) {
            return u16::try_from(number).unwrap_or(0);
        }
    }
    0
}

// The device of two texts that a record is of.
fn load_head<'a, E: Write>(
    alloc: Global,
    app: &str,
    cert: &str,
    line: &str,
    errors: &mut E,
) -> Result<Subject, Fault<'a>> {
    let words = words_of(alloc, line).map_err(|_| Fault::Memory)?;
    let Some(
        Head {
            device,
            boot,
            app: app_digest,
            cert: cert_digest,
        },
    ) = read_head(&words)
    else {
        return Err(refuse_head("this is no record of a device", errors));
    };
    if !is_digest(alloc, app_digest, app).map_err(|_| Fault::Memory)? {
        return Err(refuse_head(
            "the record was made with another text of the application",
            errors,
        ));
    }
    if !is_digest(alloc, cert_digest, cert).map_err(|_| Fault::Memory)? {
        return Err(refuse_head("the record was made with another certificate", errors));
    }
    let ready = load_named(alloc, app, cert, device, boot)?;
    let number = number_of(ready.verified(), device);
    Ok(Subject { ready, number })
}

/// The device that a record is of, out of the two files that it was made with. `Line`, 60, where the first line says no device, or other texts, of which people are
/// told on `errors`.
pub fn load_recorded<'a, R: Read, E: Write>(
    alloc: Global,
    app: &FileText<'a>,
    cert: &FileText<'a>,
    replay: &Replay<'a>,
    reader: &mut BufReader<R>,
    errors: &mut E,
) -> Result<Subject, Fault<'a>> {
    let app = app.text()?;
    let cert = cert.text()?;
    let mut line = Vec::new(alloc);
    match next_line(reader, &mut line, LONGEST) {
        Next::Whole => {}
        Next::Last | Next::End | Next::TooLong => {
            return Err(refuse_head("this is no record of a device", errors));
        }
        Next::Memory => return Err(Fault::Memory),
        Next::Failed => return Err(Fault::File(replay.record)),
    }
    match str::from_utf8(&line) {
        Ok(line) => load_head(alloc, app, cert, line, errors),
        Err(_) => Err(refuse_head("this is no record of a device", errors)),
    }
}

// Tells people why a line is refused, if one is.
fn tell_halt<E: Write>(
    taken: &Result<Ran, Halt>,
    wrong: &str,
    replay: &Replay<'_>,
    notes: &mut Notes<E, io::Sink>,
) {
    if let Err(Halt::Line(at)) = taken {
        let name = if replay.record == "-" {
            "standard input"
        } else {
            replay.record
        };
        let _ = writeln!(notes.errors, "fbr: {name}:{at}: refused 60: {wrong}");
    }
}

// Prints what the turns of a record did in all, or why they were not taken to its end, and gives the program's status.
fn print_replayed<W: Write>(
    taken: Result<Ran, Halt>,
    replay: &Replay<'_>,
    output: &mut W,
) -> io::Result<u8>
    ensures status { IfOk result (λ status. status ≤ 4) }
{
    match taken {
        Ok(ran) => print_served(ran, output),
        Err(Halt::Line(at)) => print_outcome(Err(Fault::Line(at)), output),
        Err(Halt::Memory) => print_outcome(Err(Fault::Memory), output),
        Err(Halt::Unreadable) => print_outcome(Err(Fault::File(replay.record)), output),
    }
}

/// A device that takes the turns of a record, and what looks at it.
#[derive(Drop)]
pub struct Replayed<V> {
    pub ready: Ready,
    pub viewer: V,
}

// That output could not be written.
fn lost() -> io::Error {
    io::Error::from(ErrorKind::WriteZero)
}

// What the turns of a record did in all, or why they were not taken to its end; an error if a line was lost.
fn outcome_of<'a>(
    taken: Result<Ran, Halt>,
    replay: &Replay<'a>,
) -> io::Result<Result<Sums, Fault<'a>>> {
    match taken {
        Ok(ran) => match ran.end {
            Ok(sums) => {
                if ran.is_lost {
                    Err(lost())
                } else {
                    Ok(Ok(sums))
                }
            }
            Err(Stop::LinkDown) => Ok(Err(Fault::LinkDown)),
            Err(Stop::Output | Stop::Clock) => Err(lost()),
        },
        Err(Halt::Line(at)) => Ok(Err(Fault::Line(at))),
        Err(Halt::Memory) => Ok(Err(Fault::Memory)),
        Err(Halt::Unreadable) => Ok(Err(Fault::File(replay.record))),
    }
}

// Starts a device, and takes the turns of its record again. Gives what they came to, and what has looked.
fn take_record<R: Read, W: Write, E: Write, V: Look + Drop>(
    alloc: Global,
    replayed: Replayed<V>,
    replay: &Replay<'_>,
    reader: &mut BufReader<R>,
    output: &mut W,
    errors: &mut E,
) -> (Result<Ran, Halt>, V) {
    let telling = Telling {
        is_verbose: replay.is_verbose,
        summary: None,
        has_clock: replay.has_clock,
        is_strict: false,
    };
    let Replayed { ready, viewer } = replayed;
    let shapes = Shapes::of(alloc, ready.verified().flat());
    let recorder = match Recorder::new(alloc, io::sink()) {
        Ok(recorder) => recorder,
        Err(_) => {
            ready.start().let_go();
            return (Err(Halt::Memory), viewer);
        }
    };
    let mut device = ready.start();
    let mut notes = Notes {
        errors,
        people: Teller::new(telling, shapes),
        recorder,
    };
    let mut view = View {
        has_clock: replay.has_clock,
        viewer,
        wrong: "",
    };
    view.viewer.begin(&device, output);
    let _ = flushed(output);
    let taken = take_lines(alloc, &mut device, &mut view, reader, output, &mut notes);
    device.let_go();
    tell_halt(&taken, view.wrong, replay, &mut notes);
    (taken, view.viewer)
}

/// Starts a device, takes the turns of its record again, and prints what its OUTPUTs write, and at the end what the turns did in all. A last line that was cut is
/// left out; one that says no turn ends it with 60. Where something looks at the device, the lines of what has changed stand behind each dispatch. Gives the
/// program's status, and what has looked.
pub fn replay_ready<R: Read, W: Write, E: Write, V: Look + Drop>(
    alloc: Global,
    replayed: Replayed<V>,
    replay: &Replay<'_>,
    reader: &mut BufReader<R>,
    output: &mut W,
    errors: &mut E,
) -> io::Result<(u8, V)>
    ensures status { IfOk result (λ ended. ended.0 ≤ 4) }
{
    let (taken, viewer) = take_record(alloc, replayed, replay, reader, output, errors);
    Ok((print_replayed(taken, replay, output)?, viewer))
}

/// The same, of which nothing is printed but what the one who looks at the device writes. Gives what the turns did in all, or why they were not taken to the end of
/// the record (`Line`, `LinkDown`, `Memory`, `File`), and what has looked; an error if a line was lost.
pub fn replay_told<'a, R: Read, W: Write, E: Write, V: Look + Drop>(
    alloc: Global,
    replayed: Replayed<V>,
    replay: &Replay<'a>,
    reader: &mut BufReader<R>,
    output: &mut W,
    errors: &mut E,
) -> io::Result<(Result<Sums, Fault<'a>>, V)> {
    let (taken, viewer) = take_record(alloc, replayed, replay, reader, output, errors);
    Ok((outcome_of(taken, replay)?, viewer))
}
