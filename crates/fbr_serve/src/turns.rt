//! Turns of a device over a link, one after another, and what they did in all.

ghost use Rattle.std.specs.Prelude.{◌≡◌, ◌≤◌, ◌+◌, ℕ, List, false, true};
ghost use Rattle.fb_device_state.specs.Machines.{device_in, cert_in, machine_of};
ghost use Rattle.fb_model.specs.Turning.{Turn};
ghost use Rattle.fbr_words.specs.Requests.{life_of, telling_of};
ghost use Rattle.fbr_notices.specs.Sums.{TurnAt};
ghost use Rattle.fbr_serve.specs.Serving.{IsTaken, EndsTurn, PrintsTurn, IsServed, IsTimed};
ghost use Rattle.fbr_serve.specs.Recording.{Held, Records, RecordsTurn};

use crate::ended::has_ended;
use crate::notes::Notes;
use crate::printing::{Printer, When, flushed};
use crate::timer::Timer;
use crate::waiting::rest;
use fb_device::Device;
use fb_link::Link;
use fb_turn::{Report, turn};
use fbr_notices::{Counts, Past, Stop, Sums};
use fbr_words::Serve;
use std::io::Write;

/// What turns came to: their sums, or why they ended early; and whether a line was lost.
#[derive(Clone, Copy)]
pub struct Ran {
    pub end: Result<Sums, Stop>,
    pub is_lost: bool,
}

// The end of turns, of which people are told what was left to tell.
fn ended<E: Write, F: Write>(
    end: Result<Sums, Stop>,
    is_lost: bool,
    device: &Device,
    notes: &mut Notes<E, F>,
) -> Ran
    ensures ran { result ≡ record { end = end; is_lost = is_lost } }
    ensures kept { notes.new.recorder ≡ notes.old.recorder }
{
    if notes.recorder.is_lost() {
        notes.people.unrecorded(&mut notes.errors);
    }
    notes.people.close(&mut notes.errors, device, &end);
    Ran { end, is_lost }
}

/// What a turn came to.
#[derive(Clone, Copy)]
pub(crate) struct Taken {
    pub end: Result<Report, Stop>,
    pub is_lost: bool,
}

// Whether one or the other is so.
fn either(one: bool, other: bool) -> bool
    ensures { result ≡ false → (one ≡ false) × (other ≡ false) }
{
    one || other
}

/// Takes a turn, prints what it writes, and records what came.
pub(crate) fn take_turn<L: Link, W: Write, E: Write, F: Write>(
    device: &mut Device,
    link: &mut L,
    when: When,
    output: &mut W,
    notes: &mut Notes<E, F>,
) -> Taken
    ensures taken { (turn : Turn) × IsTaken (cert_in device.old) (device_in device.old) L.steps L.count (machine_of device.old) link.old (record { now = when.now; turn = turn }) (machine_of device.new) link.new
        × EndsTurn (device_in device.old) turn result.end × PrintsTurn when.is_told (W.contents output.old) (W.contents output.new) (record { now = when.now; turn = turn }) result.is_lost
        × RecordsTurn (record { bytes = F.contents notes.old.recorder.stream; lost = notes.old.recorder.is_lost }) (record { bytes = F.contents notes.new.recorder.stream; lost = notes.new.recorder.is_lost }) (record { now = when.now; turn = turn }) }
    ensures same { (device.new.verified ≡ device.old.verified) × (device.new.number ≡ device.old.number) }
{
    notes.recorder.begin(when.now);
    let mut printer = Printer {
        output,
        notes,
        when,
        is_lost: false,
    };
    let turned = turn(device, link, &mut printer, when.now);
    let Printer {
        output,
        notes,
        is_lost,
        ..
    } = printer;
    let is_lost = either(!flushed(output), is_lost);
    let _ = notes.errors.flush();
    notes.recorder.end(turned.is_err());
    // Nothing happens here: the proof reads what the writers hold.
    let _ = &*output;
    let _ = &*notes;
    match turned {
        Ok(report) => Taken {
            end: Ok(report),
            is_lost,
        },
        Err(_) => Taken {
            end: Err(Stop::LinkDown),
            is_lost,
        },
    }
}

/// Takes turns of a device over a link, each at the moment that a timer tells, as many as there are to be, or until standard input ends where that is to end it, and
/// prints what it writes, a line each: `write NUMBER VALUES`. Behind a turn that found nothing to do it waits for the link, or until the next timer is due,
/// unless that turn was the last. What comes is recorded, a line a turn, until a line of the record cannot be written.
///
/// People are told what happens. Gives what the turns did in all. They end early where a receive fails, or the clock; and where a line is lost and that is to end them.
pub(crate) fn serve_on<T: Timer, L: Link + Counts, W: Write, E: Write, F: Write>(
    timer: &mut T,
    device: &mut Device,
    link: &mut L,
    serve: &Serve<'_>,
    output: &mut W,
    notes: &mut Notes<E, F>,
) -> Ran
    ensures served { (all : List TurnAt) × IsServed (cert_in device.old) (device_in device.old) L.steps L.count (life_of serve.now.life) (telling_of serve.now.telling) (machine_of device.old) link.old (W.contents output.old) all (machine_of device.new) link.new (W.contents output.new) result
        × Records (record { bytes = F.contents notes.old.recorder.stream; lost = notes.old.recorder.is_lost }) (record { bytes = F.contents notes.new.recorder.stream; lost = notes.new.recorder.is_lost }) all
        × ((clock : T) × IsTimed T.tells timer.old all clock) }
    ensures same { (device.new.verified ≡ device.old.verified) × (device.new.number ≡ device.old.number) }
{
    let (life, telling) = (serve.life, serve.telling);
    let mut sums = Sums::none();
    let mut is_lost = false;
    let mut has_waited = false;
    for turn in 0..life.turns {
        if life.until_eof && has_ended() {
            return ended(Ok(sums), is_lost, device, notes);
        }
        let now = match timer.since() {
            Ok(now) => now,
            Err(stop) => return ended(Err(stop), is_lost, device, notes),
        };
        let past = Past {
            sums,
            has_waited,
            drops: link.drops(),
            is_unrecorded: notes.recorder.is_lost(),
        };
        notes.people.turned(&mut notes.errors, device, now, &past);
        let when = When {
            now,
            is_told: telling.has_clock,
        };
        let taken = take_turn(device, link, when, output, notes);
        is_lost = either(is_lost, taken.is_lost);
        match taken.end {
            Ok(report) => {
                sums = sums.with(report);
                if telling.is_strict && is_lost {
                    return ended(Err(Stop::Output), is_lost, device, notes);
                }
                has_waited = turn + 1 < life.turns && rest(link, device, report, now, life.turns);
            }
            Err(stop) => return ended(Err(stop), is_lost, device, notes),
        }
    }
    ended(Ok(sums), is_lost, device, notes)
}
