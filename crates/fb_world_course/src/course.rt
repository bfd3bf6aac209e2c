//! How far a world has come, and what an event makes of it.

ghost use Rattle.std.specs.Prelude.{ℕ, suc, ◌≡◌, ◌+◌, ◌<◌, ◌≤◌, ◌^◌, [], ◌∷◌, ◌++◌, List, map, length, Some, slice_get};
ghost use Rattle.std.specs.Vec.{vec_len, vec_capacity};
ghost use Rattle.fb_model.specs.World.{WorldRun, An_offer, A_tick, A_dispatch, At_device, Deliver_datagram, Answered};
ghost use Rattle.fb_device_dispatch.specs.Answers.{dispatched_of, HasPoint};
ghost use Rattle.fb_verified.specs.declared.verified.Verified.{Verified};
ghost use Rattle.fb_verified.specs.Checked.{system_in, certificate_in};
ghost use Rattle.fb_world_course.specs.declared.answer.WorldAnswer.{WorldAnswer};
ghost use Rattle.fb_world_course.specs.Answers.{event_of, device_of, leaves_at, answer_of, answers_of, HasWorldPlace, HaveWorldPlaces};
ghost use Rattle.fb_world_course.specs.Scenes.{world_in};
ghost use Rattle.fb_world_course.specs.Keeping.{IsKept, Goes};
ghost use Rattle.fb_world_course.specs.Booking.{posted_in, number_in, IsBookable, IsBooked};
ghost use Rattle.fb_world_course.specs.Room.{opens_at_most, blocks_of, dispatches_in, HasRoom, HasPlaces, Uses};

use crate::answer::{WorldAnswer, WorldEvent};
use crate::sent::Sent;
use crate::station::{Root, Station};
use fb_device::{Answer, Dispatched, Effect, Ran};
use fb_wire::encode;

/// How far a world has come.
#[derive(Drop)]
pub struct Course {
    /// The devices, in text order.
    pub stations: Vec<Station>,
    /// The datagrams that were sent. The first of them has the number 1.
    pub datagrams: Vec<Sent>,
    /// The roots that were opened. The first of them is 1.
    pub roots: Vec<Root>,
    /// How many dispatches there were: no root has more than 2^64 - 1 times as many steps.
    pub dispatches: u64,
}

// What a block sends goes to the datagrams of its root. Answers its number.
fn post(datagrams: &mut Vec<Sent>, root: u64, effect: &Option<Effect>) -> Option<u64>
    requires room { length datagrams.old.items < vec_capacity datagrams.old }
    ensures posted { datagrams.new.items ≡ posted_in datagrams.old.items root effect.now }
    ensures number { result ≡ number_in datagrams.old.items effect.now }
    ensures room { vec_capacity datagrams.new ≡ vec_capacity datagrams.old }
{
    match effect {
        Some(Effect::Send(message)) => {
            datagrams.push_reserved(Sent::new(message, root));
            Some(datagrams.len() as u64)
        }
        _ => None,
    }
}

impl Course {
    /// Lets the course go. (A crate that lets it go by itself proves the end of each of its parts anew; this call is proved once.)
    pub fn let_go(self) {}

    // An offer at a device.
    fn offer(&mut self, device: u16, input: u16, values: &[i64]) -> WorldAnswer
        requires kept { (v : Verified) × IsKept v self.old }
        requires there { device < length self.old.stations.items }
        requires room { HasPlaces self.old device 1 0 }
        ensures goes { (v : Verified) → IsKept v self.old → Goes v self.old (At_device device (An_offer input values.now)) (answer_of (leaves_at (system_in v) device) result) self.new }
        ensures point { (v : Verified) → IsKept v self.old → HasWorldPlace (leaves_at (system_in v) device) result }
        ensures uses { Uses self.old self.new device 1 0 }
    {
        let admitted = self.stations[device as usize].offer(device, input, values, &mut self.roots);
        WorldAnswer::Answered(Answer::Admitted(admitted), None)
    }

    // A moment of the clock of a device.
    fn tick(&mut self, device: u16, now: u64) -> WorldAnswer
        requires kept { (v : Verified) × IsKept v self.old }
        requires there { device < length self.old.stations.items }
        requires room { HasPlaces self.old device (blocks_of (slice_get self.old.stations.items device)) 0 }
        ensures goes { (v : Verified) → IsKept v self.old → Goes v self.old (At_device device (A_tick now)) (answer_of (leaves_at (system_in v) device) result) self.new }
        ensures point { (v : Verified) → IsKept v self.old → HasWorldPlace (leaves_at (system_in v) device) result }
        ensures uses { Uses self.old self.new device (blocks_of (slice_get self.old.stations.items device)) 0 }
    {
        let fired = self.stations[device as usize].tick(device, now, &mut self.roots);
        WorldAnswer::Answered(Answer::Fired(fired), None)
    }

    // What a dispatch took and sent is told of the root of its cause. Answers the number of the datagram that it sent.
    fn book(&mut self, device: u16, ran: &Ran) -> Option<u64>
        requires there { device < length self.old.stations.items }
        requires root { IsBookable self.old device ran.now }
        requires numbers { self.old.dispatches + 1 < 2 ^ 64 }
        requires room { length self.old.datagrams.items < vec_capacity self.old.datagrams }
        ensures booked { IsBooked self.old device ran.now result self.new }
        ensures room { (vec_capacity self.new.datagrams ≡ vec_capacity self.old.datagrams) × (vec_capacity self.new.roots ≡ vec_capacity self.old.roots) }
    {
        let root = self.stations[device as usize].settle(ran);
        self.roots[(root - 1) as usize].steps += u128::from(ran.steps);
        self.dispatches += 1;
        post(&mut self.datagrams, root, &ran.effect)
    }

    /// A dispatch at a device. Its answer is written to its place, and this is the number of the datagram that it sent.
    pub fn dispatch(&mut self, device: u16, resource: u16, answer: &mut Dispatched) -> Option<u64>
        requires kept { (v : Verified) × IsKept v self.old }
        requires there { device < length self.old.stations.items }
        requires room { HasPlaces self.old device 0 1 }
        ensures goes { (v : Verified) → IsKept v self.old → Goes v self.old (At_device device (A_dispatch resource)) (Answered (dispatched_of (leaves_at (system_in v) device) answer.new) result) self.new }
        ensures point { (v : Verified) → IsKept v self.old → HasPoint (leaves_at (system_in v) device) answer.new }
        ensures uses { Uses self.old self.new device 0 1 }
    {
        *answer = self.stations[device as usize].device.dispatch(resource);
        match answer {
            Dispatched::Idle => None,
            Dispatched::Ran(ran) => self.book(device, ran),
        }
    }

    // The same, and its answer with that number.
    fn serve(&mut self, device: u16, resource: u16) -> WorldAnswer
        requires kept { (v : Verified) × IsKept v self.old }
        requires there { device < length self.old.stations.items }
        requires room { HasPlaces self.old device 0 1 }
        ensures goes { (v : Verified) → IsKept v self.old → Goes v self.old (At_device device (A_dispatch resource)) (answer_of (leaves_at (system_in v) device) result) self.new }
        ensures point { (v : Verified) → IsKept v self.old → HasWorldPlace (leaves_at (system_in v) device) result }
        ensures uses { Uses self.old self.new device 0 1 }
    {
        let mut answer = Dispatched::Idle;
        let sent = self.dispatch(device, resource, &mut answer);
        WorldAnswer::Answered(Answer::Served(answer), sent)
    }

    // The datagram at an index comes to a device.
    fn deliver(&mut self, at: usize, device: u16) -> WorldAnswer
        requires kept { (v : Verified) × IsKept v self.old }
        requires there { device < length self.old.stations.items }
        requires sent { at < length self.old.datagrams.items }
        requires room { HasPlaces self.old device 1 0 }
        ensures goes { (v : Verified) → IsKept v self.old → Goes v self.old (Deliver_datagram (suc at) device) (answer_of (leaves_at (system_in v) device) result) self.new }
        ensures point { (v : Verified) → IsKept v self.old → HasWorldPlace (leaves_at (system_in v) device) result }
        ensures uses { Uses self.old self.new device 1 0 }
    {
        let bytes = encode(&self.datagrams[at].message);
        let root = self.datagrams[at].root;
        let admitted = self.stations[device as usize].deliver(bytes.as_slice(), root);
        if admitted.is_ok() {
            self.datagrams[at].admit(device as usize);
        }
        WorldAnswer::Answered(Answer::Admitted(admitted), None)
    }

    /// What an event makes of the world, where there is room for it.
    pub fn happen(&mut self, event: &WorldEvent) -> WorldAnswer
        requires kept { (v : Verified) × IsKept v self.old }
        requires room { HasRoom self.old (event.now ∷ []) }
        ensures goes { (v : Verified) → IsKept v self.old → Goes v self.old (event_of event.now) (answer_of (leaves_at (system_in v) (device_of event.now)) result) self.new }
        ensures point { (v : Verified) → IsKept v self.old → HasWorldPlace (leaves_at (system_in v) (device_of event.now)) result }
        ensures uses { Uses self.old self.new (device_of event.now) (opens_at_most self.old.stations.items event.now) (dispatches_in event.now) }
    {
        let count = self.stations.len();
        match event {
            WorldEvent::Offer(device, input, values) if (*device as usize) < count => {
                self.offer(*device, *input, values.as_slice())
            }
            WorldEvent::Tick(device, now) if (*device as usize) < count => self.tick(*device, *now),
            WorldEvent::Dispatch(device, resource) if (*device as usize) < count => {
                self.serve(*device, *resource)
            }
            WorldEvent::Deliver(number, device)
                if (*device as usize) < count
                    && *number > 0
                    && *number <= self.datagrams.len() as u64 => {
                self.deliver((*number - 1) as usize, *device)
            }
            _ => WorldAnswer::Unknown,
        }
    }

    /// What events make of the world, one after another. Their answers are added behind others.
    pub fn happen_all(&mut self, events: &[WorldEvent], answers: &mut Vec<WorldAnswer>)
        requires kept { (v : Verified) × IsKept v self.old }
        requires room { HasRoom self.old events.now }
        requires answers { vec_len answers.old + length events.now ≤ vec_capacity answers.old }
        ensures run { (v : Verified) → IsKept v self.old → (more : List WorldAnswer) × (answers.new.items ≡ answers.old.items ++ more) × HaveWorldPlaces (system_in v) events.now more
            × WorldRun (system_in v) (certificate_in v) (world_in v self.old) (map event_of events.now) (answers_of (system_in v) events.now more) (world_in v self.new) }
        ensures kept { (v : Verified) → IsKept v self.old → IsKept v self.new }
    {
        for event in events {
            let answer = self.happen(event);
            answers.push_reserved(answer);
        }
    }
}
