//! A device that runs.

ghost use Rattle.std.specs.Prelude.{◌≡◌, ◌≤◌, None, length, map, take, drop, slice_get, MatchOption};
ghost use Rattle.std.specs.List.{AllByRecursion};
ghost use Rattle.fb_model.specs.Devices.{Happens, Offer, Deliver, Tick, Dispatch, Expired, Run, begun};
ghost use Rattle.fb_model.specs.Certificates.{DeviceHolds};
ghost use Rattle.fb_model.specs.Headline.{IsSound, KeepsBounds, StaysWithinAll};
ghost use Rattle.fb_model.specs.Wires.{leaves};
ghost use Rattle.fb_device_arrivals.specs.Answers.{admission_of};
ghost use Rattle.fb_device_dispatch.specs.Answers.{dispatched_of, HasPoint};
ghost use Rattle.fb_device_state.specs.Machines.{device_in, cert_in, machine_of};
ghost use Rattle.fb_device.specs.Answers.{answer_of, event_of, HasPlace, IsOpening, IsNamed, IsNoPoint, IsNumberOf, IsNoNumber};
ghost use Rattle.fb_device.specs.Looks.{IsLook, IsFill};
ghost use Rattle.fb_device.specs.NextDue.{IsNextDue};
ghost use Rattle.fb_model.specs.Promises.{IsBounded};
ghost use Rattle.fb_device.specs.Silence.{IsSilent};

use crate::answer::{Answer, Opening, Step};
use crate::due::next_due;
use crate::look::{Fill, Look, fill_of, look_at};
use crate::names::{name, opening, path, resource};
use crate::sharing::release;
use fb_device_arrivals::{Denied, begin, deliver, offer, tick};
use fb_device_dispatch::{Dispatched, dispatch};
use fb_device_state::{Program, Running};
use fb_verified::Verified;
use std::marker::Model;

/// A device that runs a checked application. Its calls need no memory: whatever one might ask for may be refused, and what it promises holds then too.
///
/// Contracts see it as a session: what was checked, and the book's machine in lists.
#[derive(Drop)]
pub struct Device {
    pub(crate) program: Program,
    pub(crate) running: Running,
}

impl Model for Device {
    ghost use Rattle.fb_device_state.specs.Sessions.{Session, session_of};
    ghost use Rattle.fb_device_state.specs.Keeping.{IsGood};
    ghost use Rattle.fb_verified.specs.contracts.verified.Verified as checked;
    ghost use Rattle.std.specs.Coded.{codes};

    ghost Value = { Session };

    ghost coded = { Prim.hlevel (codes, checked.the_row.coded) };

    ghost view = { λ d. session_of d.program d.running };

    ghost invariant = { λ d. IsGood d.program d.running };
}

impl Device {
    /// Lets the device go. (A crate that lets it go by itself proves the end of each of its parts anew; this call is proved once.)
    pub fn let_go(self) {
        let Device { program, running } = self;
        let Program {
            verified,
            number: _,
            tables,
        } = program;
        release(verified);
        tables.let_go();
        drop(running);
    }

    // Admits every BEGIN of a device to which nothing has happened.
    pub(crate) fn begin(&mut self)
        requires { IsSilent self.old }
        ensures first { machine_of self.new ≡ begun (leaves (device_in self.old)) (machine_of self.old) }
        ensures bounded { IsBounded (cert_in self.old) (device_in self.old) (machine_of self.new) }
        ensures same { (self.new.verified ≡ self.old.verified) × (self.new.number ≡ self.old.number) }
    {
        begin(&self.program, &mut self.running)
    }

    /// Dispatches the first pending entry of a resource, which runs one block to its end.
    ///
    /// `Idle` where nothing is pending or there is no such resource.
    pub fn dispatch(&mut self, resource: u16) -> Dispatched
        ensures step { Happens (cert_in self.old) (device_in self.old) (machine_of self.old) (Dispatch resource) (dispatched_of (leaves (device_in self.old)) result) (machine_of self.new) }
        ensures point { HasPoint (leaves (device_in self.old)) result }
        ensures bounded { IsBounded (cert_in self.old) (device_in self.old) (machine_of self.new) }
        ensures same { (self.new.verified ≡ self.old.verified) × (self.new.number ≡ self.old.number) }
    {
        dispatch(&self.program, &mut self.running, resource as usize)
    }

    /// Offers an arrival at the INPUT of a number, with its values. It is admitted as the next cause just where no line of [`Denied`] holds.
    pub fn offer(&mut self, input: u16, values: &[i64]) -> Result<u64, Denied>
        ensures step { Happens (cert_in self.old) (device_in self.old) (machine_of self.old) (Offer input values.now) (admission_of result) (machine_of self.new) }
        ensures bounded { IsBounded (cert_in self.old) (device_in self.old) (machine_of self.new) }
        ensures same { (self.new.verified ≡ self.old.verified) × (self.new.number ≡ self.old.number) }
    {
        offer(&self.program, &mut self.running, input, values)
    }

    /// Delivers bytes. A message to a channel arrives at the SUBSCRIBE of the channel, one to an INPUT at the INPUT of the number. It is admitted as the next
    /// cause just where no line of [`Denied`] holds.
    pub fn deliver(&mut self, bytes: &[u8]) -> Result<u64, Denied>
        ensures step { Happens (cert_in self.old) (device_in self.old) (machine_of self.old) (Deliver bytes.now) (admission_of result) (machine_of self.new) }
        ensures bounded { IsBounded (cert_in self.old) (device_in self.old) (machine_of self.new) }
        ensures same { (self.new.verified ≡ self.old.verified) × (self.new.number ≡ self.old.number) }
    {
        deliver(&self.program, &mut self.running, bytes)
    }

    /// Sets the clock to a moment in milliseconds, unless it stands later already, and tries the timers that are due: by due moment, then in the order of
    /// resources and blocks. Answers how many were fired: their EXPIRE is admitted. A timer without credit or cause number stays armed.
    pub fn tick(&mut self, now: u64) -> u32
        ensures step { Happens (cert_in self.old) (device_in self.old) (machine_of self.old) (Tick now) (Expired result) (machine_of self.new) }
        ensures bounded { IsBounded (cert_in self.old) (device_in self.old) (machine_of self.new) }
        ensures same { (self.new.verified ≡ self.old.verified) × (self.new.number ≡ self.old.number) }
    {
        tick(&self.program, &mut self.running, now)
    }

    // One call, and its answer.
    fn serve(&mut self, step: &Step) -> Answer
        ensures step { Happens (cert_in self.old) (device_in self.old) (machine_of self.old) (event_of step.now) (answer_of (leaves (device_in self.old)) result) (machine_of self.new) }
        ensures point { HasPlace (leaves (device_in self.old)) result }
        ensures same { (self.new.verified ≡ self.old.verified) × (self.new.number ≡ self.old.number) }
    {
        match step {
            Step::Offer(input, values) => Answer::Admitted(self.offer(*input, values.as_slice())),
            Step::Deliver(bytes) => Answer::Admitted(self.deliver(bytes.as_slice())),
            Step::Tick(now) => Answer::Fired(self.tick(*now)),
            Step::Dispatch(resource) => Answer::Served(self.dispatch(*resource)),
        }
    }

    /// A list of calls. The answer of each is written to its place, and later places stay. At every state on the way nothing traps, and no
    /// queue passes its depth.
    pub fn run(&mut self, steps: &[Step], answers: &mut [Answer])
        requires { length steps.now ≤ length answers.old }
        ensures points { AllByRecursion (HasPlace (leaves (device_in self.old))) (take (length steps.now) answers.new) }
        ensures run { Run (cert_in self.old) (device_in self.old) (machine_of self.old) (map event_of steps.now) (map (answer_of (leaves (device_in self.old))) (take (length steps.now) answers.new)) (machine_of self.new) }
        ensures bounds { KeepsBounds (cert_in self.old) (device_in self.old) (machine_of self.old) (map (answer_of (leaves (device_in self.old))) (take (length steps.now) answers.new)) (machine_of self.new) }
        ensures between { StaysWithinAll (cert_in self.old) (device_in self.old) (machine_of self.old) (map event_of steps.now) }
        ensures later { drop (length steps.now) answers.new ≡ drop (length steps.now) answers.old }
        ensures bounded { IsBounded (cert_in self.old) (device_in self.old) (machine_of self.new) }
        ensures same { (self.new.verified ≡ self.old.verified) × (self.new.number ≡ self.old.number) }
    {
        let _ = &self.program;
        for at in 0..steps.len() {
            answers[at] = self.serve(&steps[at]);
        }
    }

    /// The block, event and WEIGHT of the arrival that opened a cause which has not ended; `None` for any other number.
    pub fn opening(&self, cause: u64) -> Option<Opening>
        ensures { IsOpening (cert_in self.now) (leaves (device_in self.now)) (machine_of self.now) cause result }
    {
        opening(&self.program.tables.blocks, &self.running.queues, cause)
    }

    /// The moment at which the first of the armed timers is due, in milliseconds; `None` where none is armed.
    pub fn next_due(&self) -> Option<u64>
        ensures { IsNextDue (machine_of self.now).store (leaves (device_in self.now)) result }
    {
        next_due(&self.running.timers)
    }

    /// What the block of a number holds; `None` where there is none.
    pub fn look_at(&self, block: u16) -> Option<Look<'_>>
        ensures { MatchOption result (slice_get (leaves (device_in self.now)) block ≡ None) (IsLook (leaves (device_in self.now)) (machine_of self.now).store block) }
    {
        look_at(&self.program, &self.running, block)
    }

    /// How full the queue of the resource of a number is; `None` where there is none.
    pub fn fill_of(&self, resource: u16) -> Option<Fill<'_>>
        ensures { MatchOption result (length (device_in self.now).resources ≤ resource) (IsFill (cert_in self.now) (device_in self.now) (machine_of self.now) resource) }
    {
        fill_of(&self.program, &self.running, resource)
    }

    /// The certificate holds of the device, and the device is in a state from which all bounds are kept.
    pub fn keeps_bounds(&self)
        ensures holds { DeviceHolds (cert_in self.now) (device_in self.now) }
        ensures sound { IsSound (cert_in self.now) (device_in self.now) (machine_of self.now) }
    {
        let _ = &self.program;
    }

    /// What was checked of the texts.
    pub(crate) fn verified(&self) -> &Verified
        ensures { result.now ≡ self.now.verified }
    {
        &self.program.verified
    }

    /// The name of the device.
    pub fn name(&self) -> &str
        ensures { result.now ≡ (device_in self.now).name }
    {
        name(&self.program)
    }

    /// The path of a block and the name of its event input or arrival; `None` where there is none of this number.
    pub fn path(&self, block: u16, event: u16) -> Option<(&str, &str)>
        ensures { MatchOption result (IsNoPoint (leaves (device_in self.now)) block event) (λ r. IsNamed (leaves (device_in self.now)) block event r.0.now r.1.now) }
    {
        path(&self.program.tables.blocks, block, event)
    }

    /// How many blocks the device has. They are numbered from 0.
    pub fn blocks(&self) -> usize
        ensures { result ≡ length (leaves (device_in self.now)) }
    {
        self.program.tables.blocks.len()
    }

    /// How many resources the device has. They are numbered from 0.
    pub fn resources(&self) -> u16
        ensures { result ≡ length (device_in self.now).resources }
    {
        self.program.tables.resources.len() as u16
    }

    /// The number of the resource of a name. Letter case has no meaning in it. `None` where there is none.
    pub fn resource(&self, name: &str) -> Option<u16>
        ensures { MatchOption result (IsNoNumber (device_in self.now).resources name.now) (λ n. IsNumberOf (device_in self.now).resources name.now n) }
    {
        resource(&self.program.tables.resources, name)
    }
}
