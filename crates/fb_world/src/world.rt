//! A world of devices.

ghost use Rattle.std.specs.Prelude.{ℕ, ◌≡◌, ◌≤◌, ◌<◌, true, false, length, map, ◌+◌, Some, None, IfSome, IfOk, IfErr, OnErr, MatchOption, slice_get};
ghost use Rattle.std.specs.List.{AllByRecursion};
ghost use Rattle.std.specs.Option.{option_map};
ghost use Rattle.fb_model.specs.Spelling.{text_limit};
ghost use Rattle.fb_model.specs.System.{System, Device as book};
ghost use Rattle.fb_model.specs.Declarations.{SourceTree};
ghost use Rattle.fb_model.specs.Certificates as certs;
ghost use Rattle.fb_model.specs.CertificateText.{Spells, most_characters};
ghost use Rattle.fb_model.specs.EventBlocks.{Elaborates};
ghost use Rattle.fb_model.specs.World.{IsFirst, WorldHappens, WorldRun, AreWithin, root_steps, At_device, A_dispatch, Answered};
ghost use Rattle.fb_device_dispatch.specs.Answers.{dispatched_of, HasPoint};
ghost use Rattle.fb_model.specs.Worlds.{IsWorldSound};
ghost use Rattle.fb_model.specs.Sources.{IsSource};
ghost use Rattle.fb_verified.specs.Lookups.{is_same_path};
ghost use Rattle.fb_device.specs.Refusals.{no_memory};
ghost use Rattle.fb_world_course.specs.Scenes.{system_of, cert_of, world_of};
ghost use Rattle.fb_world_course.specs.Answers.{event_of, device_of, leaves_at, answer_of, answers_of, HasWorldPlace, HaveWorldPlaces};
ghost use Rattle.fb_world.specs.Answers.{steps_of, HasMissed};
ghost use Rattle.fb_world_course.specs.Keeping.{IsReached};
ghost use Rattle.fb_world.specs.Laws.{AreSeldom, IsNextOften, IsTooOften};
ghost use Rattle.fb_model.specs.Causes.{Falls, FallsOver};
ghost use Rattle.fb_model.specs.Promises.{KeepsFar};
ghost use Rattle.fb_world.specs.Loads.{IsWorldOf, IsWorldFault, IsDeviceAt};

use crate::answer::{Missed, RootSteps, TooOften};
use crate::often::{next_too_often, too_often};
use fb_device::{Device, Dispatched, Refusal, release, share};
use fb_verdict::check_text;
use fb_verified::Verified;
use fb_world_course::{Course, OutOfMemory, WorldAnswer, WorldEvent, first_course, numbered};
use std::alloc::Global;
use std::marker::Model;
use std::rc::Rc;
use std::slice::from_ref;

/// A world of devices that run a checked application, with their datagrams and roots.
///
/// Contracts see it as a scene: what was checked, and in lists the devices, the datagrams and the roots. It ends by [`World::let_go`] alone.
pub struct World {
    verified: Rc<Verified>,
    course: Course,
}

impl Model for World {
    ghost use Rattle.std.specs.Coded.{codes};
    ghost use Rattle.fb_verified.specs.contracts.verified.Verified as checked;
    ghost use Rattle.fb_world_course.specs.Scenes.{Scene, scene_of};
    ghost use Rattle.fb_world_course.specs.Keeping.{IsKept};

    ghost Value = { Scene };

    ghost coded = { Prim.hlevel (codes, checked.the_row.coded) };

    ghost view = { λ w. scene_of w.verified.value w.course };

    ghost invariant = { λ w. IsKept w.verified.value w.course };
}

impl World {
    /// The first world of a system and its certificate: every device has started, in text order. Each BEGIN has opened a root.
    ///
    /// Refused as [`check_text`] refuses, or where memory runs out.
    pub fn new(alloc: Global, text: &str, certificate: &str) -> Result<World, Refusal>
        ensures first { IfOk result (IsWorldOf text.now certificate.now) }
        ensures within { IfOk result (λ w. (length text.now ≤ text_limit) × (length certificate.now ≤ most_characters)) }
        ensures refused { IfErr result (IsWorldFault text.now certificate.now) }
        ensures accepts { (source : SourceTree) (system : System) (rows : certs.Certificate) → length text.now ≤ text_limit → length certificate.now ≤ most_characters
            → IsSource text.now source → Elaborates source system → Spells certificate.now rows → certs.Fits system rows → IfErr result (λ f. f ≡ no_memory) }
    {
        match check_text(alloc, text, certificate) {
            Ok(verified) => match share(alloc, verified) {
                Ok(shared) => World::over(alloc, shared),
                Err(refusal) => Err(refusal),
            },
            Err(refusal) => Err(Refusal::Checked(refusal)),
        }
    }

    /// The first world of what was checked. Refused only where memory runs out.
    pub fn over(alloc: Global, verified: Rc<Verified>) -> Result<World, Refusal>
        ensures first { IfOk result (λ w. (w.verified ≡ verified.value) × IsFirst (system_of w) (world_of w)) }
        ensures refused { IfErr result (λ f. f ≡ no_memory) }
    {
        match first_course(alloc, &verified) {
            Ok(course) => Ok(World { verified, course }),
            Err(refusal) => {
                release(verified);
                Err(refusal)
            }
        }
    }

    /// Lets the world go. (A crate that ended its parts by itself would prove the end of each anew.)
    pub fn let_go(self) {
        let World { verified, course } = self;
        course.let_go();
        release(verified);
    }

    /// That a run leads from the first world to this one, so that it is sound and keeps FAR, for proofs: nothing is done.
    pub fn holds(&self)
        ensures reached { IsReached (system_of self.now) (cert_of self.now) (world_of self.now) }
        ensures sound { IsWorldSound (system_of self.now) (cert_of self.now) (world_of self.now) }
        ensures kept { KeepsFar (system_of self.now) (cert_of self.now) (world_of self.now) }
    {
        let _ = &self.course;
    }

    /// An event of the book's world. What it may need is reserved first: where memory runs out, nothing has changed. With REPEATS, the measure of each root
    /// falls by the steps that are taken, and rises at no delivery that is paid for.
    pub fn step(&mut self, event: &WorldEvent) -> Result<WorldAnswer, OutOfMemory>
        ensures happens { IfOk result (λ a. WorldHappens (system_of self.old) (cert_of self.old) (world_of self.old) (event_of event.now) (answer_of (leaves_at (system_of self.old) (device_of event.now)) a) (world_of self.new)) }
        ensures falls { IfOk result (λ a. Falls (system_of self.old) (cert_of self.old) (world_of self.old) (event_of event.now) (answer_of (leaves_at (system_of self.old) (device_of event.now)) a) (world_of self.new)) }
        ensures point { IfOk result (HasWorldPlace (leaves_at (system_of self.old) (device_of event.now))) }
        ensures unchanged { OnErr result (self.new ≡ self.old) }
        ensures same { self.new.verified ≡ self.old.verified }
    {
        self.course.reserve(from_ref(event))?;
        Ok(self.course.happen(event))
    }

    /// A dispatch at a device, of the resource of a number, without an answer that is moved about: it is written to its place. Gives the number of the datagram
    /// that was sent. What it may need is reserved first: where memory runs out, or there is no such device, neither the world nor that place has changed.
    pub fn dispatch(
        &mut self,
        device: u16,
        resource: u16,
        answer: &mut Dispatched,
    ) -> Result<Option<u64>, Missed>
        ensures happens { IfOk result (λ sent. WorldHappens (system_of self.old) (cert_of self.old) (world_of self.old) (At_device device (A_dispatch resource)) (Answered (dispatched_of (leaves_at (system_of self.old) device) answer.new) sent) (world_of self.new)) }
        ensures falls { IfOk result (λ sent. Falls (system_of self.old) (cert_of self.old) (world_of self.old) (At_device device (A_dispatch resource)) (Answered (dispatched_of (leaves_at (system_of self.old) device) answer.new) sent) (world_of self.new)) }
        ensures point { IfOk result (λ _. HasPoint (leaves_at (system_of self.old) device) answer.new) }
        ensures missed { IfErr result (λ why. HasMissed (system_of self.old) device why × (self.new ≡ self.old) × (answer.new ≡ answer.old)) }
        ensures same { self.new.verified ≡ self.old.verified }
    {
        if device as usize >= self.course.stations.len() {
            return Err(Missed::Unknown);
        }
        match self.course.reserve_dispatch() {
            Ok(()) => Ok(self.course.dispatch(device, resource, answer)),
            Err(_) => Err(Missed::OutOfMemory),
        }
    }

    /// A list of events, one after another. What all of them may need is reserved first: where memory runs out, nothing has changed.
    pub fn run(&mut self, events: &[WorldEvent]) -> Result<Vec<WorldAnswer>, OutOfMemory>
        ensures run { IfOk result (λ as'. WorldRun (system_of self.old) (cert_of self.old) (world_of self.old) (map event_of events.now) (answers_of (system_of self.old) events.now as'.items) (world_of self.new)) }
        ensures falls { IfOk result (λ as'. FallsOver (system_of self.old) (cert_of self.old) (world_of self.old) (map event_of events.now) (answers_of (system_of self.old) events.now as'.items) (world_of self.new)) }
        ensures points { IfOk result (λ as'. HaveWorldPlaces (system_of self.old) events.now as'.items) }
        ensures unchanged { OnErr result (self.new ≡ self.old) }
        ensures same { self.new.verified ≡ self.old.verified }
    {
        let mut answers = Vec::with_capacity(*self.course.roots.allocator(), events.len())?;
        self.course.reserve(events)?;
        self.course.happen_all(events, &mut answers);
        Ok(answers)
    }

    /// The steps of a root on all devices so far, and the FAR of its opening; `None` where it was not opened. Where the datagrams of the root that have no stamp
    /// were each admitted at most REPEATS times at each device, the steps are at most the FAR.
    pub fn root(&self, number: u64) -> Option<RootSteps>
        ensures steps { option_map steps_of result ≡ root_steps (cert_of self.now) (world_of self.now) number }
        ensures bounded { (repeats : ℕ) → (cert_of self.now).repeats ≡ Some repeats → AreWithin repeats number (world_of self.now).datagrams → IfSome result (λ r. IfSome r.far (λ far. r.steps ≤ far)) }
    {
        if number == 0 || number > self.course.roots.len() as u64 {
            return None;
        }
        let root = &self.course.roots[(number - 1) as usize];
        Some(RootSteps {
            steps: root.steps.min(u128::from(u64::MAX)) as u64,
            far: root.opening.far,
        })
    }

    /// A datagram of a root that has no stamp and that a device admitted more than REPEATS times, with this device; `None` where there is none, and just there
    /// the FAR of the root's opening bounds its steps by what the certificate pays for. `None` too where the certificate has no row REPEATS.
    pub fn too_often(&self, number: u64) -> Option<TooOften>
        ensures told { (repeats : ℕ) → (cert_of self.now).repeats ≡ Some repeats → MatchOption result (AreWithin repeats number (world_of self.now).datagrams) (IsTooOften repeats number (world_of self.now).datagrams) }
        ensures unpaid { (cert_of self.now).repeats ≡ None → result ≡ None }
    {
        match self.verified.certificate().repeats() {
            Some(repeats) => too_often(&self.course.datagrams, number, u16::from(repeats)),
            None => None,
        }
    }

    /// The first datagram behind the one of a number, or with 0 of all, that has no stamp and that a device admitted more than REPEATS
    /// times, with its root, and the first such device. `None` where there is none behind it, or where the certificate has no row REPEATS.
    pub fn next_too_often(&self, behind: u64) -> Option<TooOften>
        ensures told { (repeats : ℕ) → (cert_of self.now).repeats ≡ Some repeats → MatchOption result (AreSeldom repeats behind (length (world_of self.now).datagrams + 1) (world_of self.now).datagrams) (IsNextOften repeats behind (world_of self.now).datagrams) }
        ensures unpaid { (cert_of self.now).repeats ≡ None → result ≡ None }
    {
        match self.verified.certificate().repeats() {
            Some(repeats) => next_too_often(
                &self.course.datagrams,
                behind as usize,
                u16::from(repeats),
            ),
            None => None,
        }
    }

    /// The number of the device of a name. Letter case has no meaning in it. `None` where there is none.
    pub fn device(&self, name: &str) -> Option<u16>
        ensures { MatchOption result (AllByRecursion (λ (d : book). is_same_path d.name name.now ≡ false) (system_of self.now).devices) (λ n. (d : book) × (slice_get (system_of self.now).devices n ≡ Some d) × (is_same_path d.name name.now ≡ true)) }
    {
        numbered(&self.course.stations, name)
    }

    /// The device of a number; `None` where there is none.
    pub fn get(&self, number: u16) -> Option<&Device>
        ensures { MatchOption result (slice_get (system_of self.now).devices number ≡ None) (λ d. IsDeviceAt self.now number d.now) }
    {
        let at = number as usize;
        if at < self.course.stations.len() {
            Some(&self.course.stations[at].device)
        } else {
            None
        }
    }
}
