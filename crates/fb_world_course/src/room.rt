//! Room for all that events may open and send, so that they need no memory.

ghost use Rattle.std.specs.Prelude.{ℕ, ◌≡◌, ◌+◌, ◌≤◌, Some, map, IfSome, OnOk, slice_get};
ghost use Rattle.indexmap.specs.IndexMap.{spare};
ghost use Rattle.std.specs.List.{sum_by};
ghost use Rattle.fb_world_course.specs.Answers as answers;
ghost use Rattle.fb_world_course.specs.Room.{face_of, blocks_of, opens_at_most, opens_there, dispatches_in, HasRoom, HasPlaces, IsSame};

use crate::answer::{OutOfMemory, WorldEvent};
use crate::course::Course;
use crate::station::Station;

// How many blocks the device of a number has; 0 where there is none.
fn blocks(stations: &[Station], device: u16) -> usize
    ensures { result ≡ blocks_of (slice_get stations.now device) }
{
    let at = device as usize;
    if at < stations.len() {
        stations[at].device.blocks()
    } else {
        0
    }
}

// How many causes an event opens at most.
fn opened(stations: &[Station], event: &WorldEvent) -> usize
    ensures { result ≡ opens_at_most stations.now event.now }
{
    match event {
        WorldEvent::Offer(_, _, _) => 1,
        WorldEvent::Tick(device, _) => blocks(stations, *device),
        WorldEvent::Dispatch(_, _) => 0,
        WorldEvent::Deliver(_, _) => 1,
    }
}

// The number of the device at which an event is.
fn device_of(event: &WorldEvent) -> u16
    ensures { result ≡ answers.device_of event.now }
{
    match event {
        WorldEvent::Offer(device, _, _) => *device,
        WorldEvent::Tick(device, _) => *device,
        WorldEvent::Dispatch(device, _) => *device,
        WorldEvent::Deliver(_, device) => *device,
    }
}

// How many causes an event opens at most at the device of a number.
fn opened_there(stations: &[Station], at: usize, event: &WorldEvent) -> usize
    ensures { result ≡ opens_there stations.now at event.now }
{
    if device_of(event) as usize == at {
        opened(stations, event)
    } else {
        0
    }
}

// How many causes events open at most; none where this is no number.
fn all_opened(stations: &[Station], events: &[WorldEvent]) -> Option<usize>
    ensures { IfSome result (λ n. n ≡ sum_by (opens_at_most stations.now) events.now) }
{
    let mut sum = 0usize;
    for event in events {
        sum = sum.checked_add(opened(stations, event))?;
    }
    Some(sum)
}

// How many of them at the device of a number.
fn all_there(stations: &[Station], at: usize, events: &[WorldEvent]) -> Option<usize>
    ensures { IfSome result (λ n. n ≡ sum_by (opens_there stations.now at) events.now) }
{
    let mut sum = 0usize;
    for event in events {
        sum = sum.checked_add(opened_there(stations, at, event))?;
    }
    Some(sum)
}

// How many dispatches are among events.
fn dispatched(events: &[WorldEvent]) -> usize
    ensures { result ≡ sum_by dispatches_in events.now }
{
    let mut count = 0;
    for event in events {
        if matches!(event, WorldEvent::Dispatch(_, _)) {
            count += 1;
        }
    }
    count
}

// Room in the tables of all devices.
fn reserve_tables(stations: &mut [Station], events: &[WorldEvent]) -> Result<(), OutOfMemory>
    ensures same { map face_of stations.new ≡ map face_of stations.old }
    ensures room { OnOk result ((k : ℕ) (s : _) → slice_get stations.new k ≡ Some s → sum_by (opens_there stations.new k) events.now ≤ spare s.roots) }
{
    for at in 0..stations.len() {
        let Some(causes) = all_there(stations, at, events) else {
            return Err(OutOfMemory);
        };
        stations[at].roots.reserve(causes)?;
    }
    Ok(())
}

impl Course {
    /// Makes room for events. Where there is none, nothing has changed.
    pub fn reserve(&mut self, events: &[WorldEvent]) -> Result<(), OutOfMemory>
        ensures same { IsSame self.old self.new }
        ensures room { OnOk result (HasRoom self.new events.now) }
    {
        let Some(opened) = all_opened(&self.stations, events) else {
            return Err(OutOfMemory);
        };
        let sent = dispatched(events);
        if u64::MAX - self.dispatches < sent as u64 {
            return Err(OutOfMemory);
        }
        self.roots.reserve(opened)?;
        self.datagrams.reserve(sent)?;
        reserve_tables(&mut self.stations, events)
    }

    /// Makes room for a dispatch. Where there is none, nothing has changed.
    pub fn reserve_dispatch(&mut self) -> Result<(), OutOfMemory>
        ensures same { IsSame self.old self.new }
        ensures room { OnOk result ((device : ℕ) → HasPlaces self.new device 0 1) }
    {
        if self.dispatches == u64::MAX {
            return Err(OutOfMemory);
        }
        self.datagrams.reserve(1)?;
        Ok(())
    }
}
