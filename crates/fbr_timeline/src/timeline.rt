//! Notes what ran when. A note of a dispatch, an arrival or a timer takes about 80 bytes, so that memory grows with the run.

use crate::causes::{Causes, Turn};
use crate::clock::Clock;
use crate::lane::{Dispatch, Lane, Note, Run};
use crate::picture::{Scene, draw};
use fb_device::{Device, Ran};
use std::alloc::{AllocError, Global};
use std::io;
use std::io::Write;

/// What ran when, in the resources that have a lane.
#[derive(Drop)]
pub struct Timeline {
    alloc: Global,
    lanes: Vec<Lane>,
    runs: Vec<Run>,
    notes: Vec<Note>,
    causes: Causes,
    clock: Clock,
}

// How many entries are pending in the queue of a resource.
fn pending_in(device: &Device, resource: u16) -> u64 {
    match device.fill_of(resource) {
        Some(fill) => u64::try_from(fill.pending).unwrap_or(u64::MAX),
        None => 0,
    }
}

impl Timeline {
    /// Nothing has run yet.
    pub fn new(alloc: Global) -> Timeline {
        Timeline {
            alloc,
            lanes: Vec::new(alloc),
            runs: Vec::new(alloc),
            notes: Vec::new(alloc),
            causes: Causes::new(alloc),
            clock: Clock::new(),
        }
    }

    /// A run begins at time 0, which may have a name.
    pub fn begin(&mut self, sequence: Option<&str>) -> Result<(), AllocError> {
        if !self.runs.is_empty() {
            self.clock.restart();
            self.causes.clear();
        }
        for at in 0..self.lanes.len() {
            if let Some(lane) = self.lanes.get_mut(at) {
                lane.pending = 0;
            }
        }
        let name = match sequence {
            Some(name) => Some(String::from_str(self.alloc, name)?),
            None => None,
        };
        let from = self.notes.len();
        self.runs.push(Run { name, from })?;
        Ok(())
    }

    // The place of the lane of a resource.
    fn lane_of(&self, device: u16, resource: u16) -> Option<usize> {
        for (place, lane) in self.lanes.iter().enumerate() {
            if lane.device == device && lane.resource == resource {
                return Some(place);
            }
        }
        None
    }

    /// Adds the lane of a resource of the device of a number, which has this name, unless it is there. Its queue has so many places.
    pub fn add(
        &mut self,
        number: u16,
        resource: u16,
        depth: u64,
        name: String,
    ) -> Result<(), AllocError> {
        self.causes.reserve(depth)?;
        if self.lane_of(number, resource).is_none() {
            self.lanes.push(Lane {
                device: number,
                resource,
                name,
                called: Vec::new(self.alloc),
                pending: 0,
                most: 0,
                depth,
            })?;
        }
        Ok(())
    }

    /// Looks at the device of a number for the first time in a run, whose lanes were added: each device, the first of all at the beginning.
    pub fn first(
        &mut self,
        number: u16,
        device: &Device,
        is_beginning: bool,
    ) -> Result<(), AllocError> {
        if is_beginning {
            self.clock.step(0);
        }
        self.look(number, device, 0)
    }

    // Whether nothing is pending in any lane.
    fn is_idle(&self) -> bool {
        for lane in &self.lanes {
            if lane.pending > 0 {
                return false;
            }
        }
        true
    }

    // Notes what happened in the lane at a place, behind which so many entries are pending.
    fn note(
        &mut self,
        lane: usize,
        dispatch: Option<Dispatch>,
        pending: u64,
        now: u64,
    ) -> Result<(), AllocError> {
        let is_first = self.is_idle();
        if let Some(seen) = self.lanes.get_mut(lane) {
            seen.see(pending);
        }
        self.notes.push(Note {
            lane,
            dispatch,
            pending,
            now,
            stamp: self.clock.stamp(),
            is_first,
        })?;
        Ok(())
    }

    // Notes which queues of a device have changed.
    fn look(&mut self, number: u16, device: &Device, now: u64) -> Result<(), AllocError> {
        for place in 0..self.lanes.len() {
            if let Some(lane) = self.lanes.get(place) {
                let (of, resource, before) = (lane.device, lane.resource, lane.pending);
                if of == number {
                    let pending = pending_in(device, resource);
                    if pending != before {
                        self.note(place, None, pending, now)?;
                    }
                }
            }
        }
        Ok(())
    }

    // The dispatch in the lane at a place.
    fn dispatch_of(
        &mut self,
        place: usize,
        device: &Device,
        ran: &Ran,
    ) -> Result<Dispatch, AllocError> {
        let steps = self.causes.take(Turn {
            resource: place,
            cause: ran.cause,
            steps: ran.steps,
            is_last: ran.ended.is_some(),
        })?;
        let called = match self.lanes.get_mut(place) {
            Some(lane) => lane.call(self.alloc, device, ran.block, ran.event)?,
            None => 0,
        };
        Ok(Dispatch {
            called,
            cause: ran.cause,
            steps,
            is_last: ran.ended.is_some(),
        })
    }

    /// Notes a dispatch of a resource of the device of a number, at a moment of its clock in milliseconds.
    pub fn ran(
        &mut self,
        number: u16,
        device: &Device,
        resource: u16,
        now: u64,
        ran: &Ran,
    ) -> Result<(), AllocError> {
        self.clock.step(now);
        let Some(place) = self.lane_of(number, resource) else {
            return Ok(());
        };
        let dispatch = self.dispatch_of(place, device, ran)?;
        self.note(place, Some(dispatch), pending_in(device, resource), now)
    }

    /// Notes which queues of the device of a number have changed by a tick or an arrival, at a moment of its clock in milliseconds.
    pub fn came(&mut self, number: u16, device: &Device, now: u64) -> Result<(), AllocError> {
        self.clock.step(now);
        self.look(number, device, now)
    }

    /// The end of all runs: the picture is drawn.
    pub fn end<W: Write>(self, out: &mut W) -> io::Result<()> {
        let scene = Scene {
            alloc: self.alloc,
            lanes: &self.lanes,
            runs: &self.runs,
            notes: &self.notes,
        };
        draw(scene, out)
    }
}
