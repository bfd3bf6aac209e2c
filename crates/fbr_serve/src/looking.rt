//! Turns that are watched. What is seen in them is tested, and no contract says it.

ghost use Rattle.std.specs.Prelude.{◌≡◌, Bool, false, true};
ghost use Rattle.fb_device_state.specs.Machines.{device_in, cert_in, machine_of};
ghost use Rattle.fb_model.specs.Turning.{Turn};
ghost use Rattle.fbr_serve.specs.Serving.{IsTaken, EndsTurn};

use crate::notes::Notes;
use crate::printing::{When, flushed, print_write};
use crate::turns::Taken;
use fb_device::{Denied, Device, Dispatched, Effect};
use fb_link::Link;
use fb_turn::{LinkDown, Report, Watch, turn};
use fbr_notices::{Stop, arrival_object, dispatch_object, turn_object};
use fbr_objects::Object;
use fbr_watch::{RanAt, Watching};
use std::alloc::Global;
use std::io;
use std::io::Write;

/// What looks at a device in its turns.
pub trait Look {
    /// Whether it sees nothing, for proofs.
    ghost blind: { Self → Bool };

    /// Whether it sees nothing.
    fn is_blind(&self) -> bool
        ensures { result ≡ blind self.now };

    /// Whether programs are told in objects what happens; then OUTPUTs have no lines.
    fn is_told(&self) -> bool;

    /// The first look at the device.
    fn begin<W: Write>(&mut self, device: &Device, output: &mut W);

    /// A look behind a datagram that came at a moment in milliseconds, and was answered.
    fn came<W: Write>(
        &mut self,
        device: &Device,
        now: u64,
        bytes: &[u8],
        answer: &Result<u64, Denied>,
        output: &mut W,
    );

    /// A look behind a dispatch.
    fn ran<W: Write>(&mut self, device: &Device, at: RanAt<'_>, output: &mut W);

    /// A turn has ended, at a moment in milliseconds.
    fn turned<W: Write>(&mut self, now: u64, report: Report, output: &mut W);
}

/// What sees nothing.
#[derive(Clone, Copy)]
pub struct Blind;

impl Look for Blind {
    ghost blind = { λ _. true };

    fn is_blind(&self) -> bool {
        true
    }

    fn is_told(&self) -> bool {
        false
    }

    fn begin<W: Write>(&mut self, _device: &Device, _output: &mut W) {}

    fn came<W: Write>(
        &mut self,
        _device: &Device,
        _now: u64,
        _bytes: &[u8],
        _answer: &Result<u64, Denied>,
        _output: &mut W,
    ) {}

    fn ran<W: Write>(&mut self, _device: &Device, _at: RanAt<'_>, _output: &mut W) {}

    fn turned<W: Write>(&mut self, _now: u64, _report: Report, _output: &mut W) {}
}

/// What watches a device, the number of the device, and whether programs are told what happens.
#[derive(Drop)]
pub struct Viewer<'s, 'a> {
    alloc: Global,
    number: u16,
    watching: Watching<'s, 'a, Vec<u8>>,
    is_told: bool,
    done: io::Result<()>,
}

impl<'s, 'a> Viewer<'s, 'a> {
    /// What watches the device of a number, and tells programs what happens if it is to.
    pub fn new(
        alloc: Global,
        number: u16,
        watching: Watching<'s, 'a, Vec<u8>>,
        is_told: bool,
    ) -> Viewer<'s, 'a> {
        Viewer {
            alloc,
            number,
            watching,
            is_told,
            done: Ok(()),
        }
    }

    // Writes an object, if all before it were written.
    fn tell<W: Write>(&mut self, object: Object, output: &mut W) {
        if self.done.is_ok() {
            self.done = object.write(output);
        }
    }

    /// What has watched; or an error if an object could not be written.
    pub fn end(self) -> io::Result<Watching<'s, 'a, Vec<u8>>> {
        let Viewer { watching, done, .. } = self;
        done?;
        Ok(watching)
    }
}

impl Look for Viewer<'_, '_> {
    ghost blind = { λ _. false };

    fn is_blind(&self) -> bool {
        false
    }

    fn is_told(&self) -> bool {
        self.is_told
    }

    fn begin<W: Write>(&mut self, device: &Device, output: &mut W) {
        self.watching.begin(None, output);
        self.watching.first(self.number, device, output);
    }

    fn came<W: Write>(
        &mut self,
        device: &Device,
        now: u64,
        bytes: &[u8],
        answer: &Result<u64, Denied>,
        output: &mut W,
    ) {
        if self.is_told {
            let object = arrival_object(self.alloc, device, now, bytes, answer);
            self.tell(object, output);
        }
        self.watching.came(self.number, device, now, output);
    }

    fn ran<W: Write>(&mut self, device: &Device, at: RanAt<'_>, output: &mut W) {
        if self.is_told {
            let object = dispatch_object(self.alloc, device, at.now, at.ran);
            self.tell(object, output);
        }
        self.watching.ran(self.number, device, at, output);
    }

    fn turned<W: Write>(&mut self, now: u64, report: Report, output: &mut W) {
        if self.is_told {
            let object = turn_object(self.alloc, now, report);
            self.tell(object, output);
        }
    }
}

// Prints as in any turn, and looks at the device behind each datagram and each dispatch.
#[derive(Drop)]
struct Looker<'a, 'b, 'v, W, E, F, V> {
    output: &'a mut W,
    notes: &'b mut Notes<E, F>,
    viewer: &'v mut V,
    when: When,
    is_lost: bool,
    // The resource that is dispatched next.
    resource: u16,
}

impl<W: Write, E: Write, F: Write, V: Look> Watch for Looker<'_, '_, '_, W, E, F, V> {
    fn came(&mut self, device: &Device, bytes: &[u8], answer: &Result<u64, Denied>) {
        let now = self.when.now;
        let notes = &mut *self.notes;
        notes
            .people
            .came(&mut notes.errors, now, device, bytes, answer);
        self.viewer.came(device, now, bytes, answer, self.output);
    }

    fn served(&mut self, device: &Device, answer: &Dispatched, is_taken: bool) {
        if let Dispatched::Ran(ran) = answer {
            let now = self.when.now;
            let notes = &mut *self.notes;
            if let Some(Effect::Write(number, values)) = &ran.effect {
                if !self.viewer.is_told() {
                    let printed = print_write(self.output, self.when, *number, values.as_slice());
                    if printed.is_err() {
                        self.is_lost = true;
                        notes.people.lost_line();
                    }
                }
            }
            notes
                .people
                .ran(&mut notes.errors, now, device, ran, is_taken);
            let at = RanAt {
                resource: self.resource,
                now,
                ran,
            };
            self.viewer.ran(device, at, self.output);
        }
        self.resource = self.resource.saturating_add(1);
    }
}

// Tells that a turn has ended, unless its link failed.
fn tell_turned<W: Write, V: Look>(
    viewer: &mut V,
    now: u64,
    turned: &Result<Report, LinkDown>,
    output: &mut W,
) {
    if let Ok(report) = turned {
        viewer.turned(now, *report, output);
    }
}

/// Takes a turn as `take_turn` does, without a record, and looks at the device. Whatever is printed or told of it is there when it ends.
pub(crate) fn look_turn<L: Link, W: Write, E: Write, F: Write, V: Look>(
    device: &mut Device,
    link: &mut L,
    when: When,
    output: &mut W,
    notes: &mut Notes<E, F>,
    viewer: &mut V,
) -> Taken
    ensures taken { (turn : Turn) × IsTaken (cert_in device.old) (device_in device.old) L.steps L.count (machine_of device.old) link.old (record { now = when.now; turn = turn }) (machine_of device.new) link.new
        × EndsTurn (device_in device.old) turn result.end }
    ensures same { (device.new.verified ≡ device.old.verified) × (device.new.number ≡ device.old.number) }
{
    let mut looker = Looker {
        output,
        notes,
        viewer,
        when,
        is_lost: false,
        resource: 0,
    };
    let turned = turn(device, link, &mut looker, when.now);
    let Looker {
        output,
        notes,
        viewer,
        is_lost,
        ..
    } = looker;
    tell_turned(viewer, when.now, &turned, output);
    let is_lost = !flushed(output) || is_lost;
    let _ = notes.errors.flush();
    match turned {
        Ok(report) => Taken {
            end: Ok(report),
            is_lost,
        },
        Err(_) => Taken {
            end: Err(Stop::LinkDown),
            is_lost,
        },
    }
}
