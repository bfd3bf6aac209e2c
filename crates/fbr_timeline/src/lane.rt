//! What a timeline notes.

use fb_device::Device;
use std::alloc::{AllocError, Global};

/// An event input of a block, by its numbers, and the name of both.
#[derive(Drop)]
pub(crate) struct Called {
    pub(crate) block: u16,
    pub(crate) event: u16,
    pub(crate) name: String,
}

/// The lane of a resource: the numbers of its device and of itself, its name, and the events that it dispatched.
#[derive(Drop)]
pub(crate) struct Lane {
    pub(crate) device: u16,
    pub(crate) resource: u16,
    pub(crate) name: String,
    pub(crate) called: Vec<Called>,
    /// How many entries were pending at the last look, at most, and how many may be.
    pub(crate) pending: u64,
    pub(crate) most: u64,
    pub(crate) depth: u64,
}

/// A dispatch: the place of its event among those of its lane, its cause, and all steps so far of that.
#[derive(Clone, Copy)]
pub(crate) struct Dispatch {
    pub(crate) called: usize,
    pub(crate) cause: u64,
    pub(crate) steps: u64,
    pub(crate) is_last: bool,
}

/// A moment in a lane: a dispatch, or an arrival or a timer, which changes the queue alone.
#[derive(Clone, Copy)]
pub(crate) struct Note {
    pub(crate) lane: usize,
    pub(crate) dispatch: Option<Dispatch>,
    /// How many entries are pending behind it.
    pub(crate) pending: u64,
    /// The clock of the device in milliseconds, and the time of a dump in microseconds.
    pub(crate) now: u64,
    pub(crate) stamp: u64,
    /// Whether nothing was pending before it in any lane.
    pub(crate) is_first: bool,
}

/// A run: its name, if it has one, and the place of its first note.
#[derive(Drop)]
pub(crate) struct Run {
    pub(crate) name: Option<String>,
    pub(crate) from: usize,
}

// What is behind the names of a device and a resource in a path.
fn inner_of(path: &str) -> &str {
    match path.split_once('.') {
        Some((_, rest)) => match rest.split_once('.') {
            Some((_, inner)) => inner,
            None => path,
        },
        None => path,
    }
}

// The name of an event input of a block.
fn name_of(alloc: Global, device: &Device, block: u16, event: u16) -> Result<String, AllocError> {
    let mut name = String::new(alloc);
    match device.path(block, event) {
        Some((path, event)) => {
            name.push_str(inner_of(path))?;
            name.push_str(".")?;
            name.push_str(event)?;
        }
        None => name.push_str("?")?,
    }
    Ok(name)
}

impl Lane {
    // The place of an event among those that were dispatched.
    fn place_of(&self, block: u16, event: u16) -> Option<usize> {
        for (place, called) in self.called.iter().enumerate() {
            if called.block == block && called.event == event {
                return Some(place);
            }
        }
        None
    }

    /// The place of an event among those that were dispatched, which is added to them.
    pub(crate) fn call(
        &mut self,
        alloc: Global,
        device: &Device,
        block: u16,
        event: u16,
    ) -> Result<usize, AllocError> {
        if let Some(place) = self.place_of(block, event) {
            return Ok(place);
        }
        let place = self.called.len();
        let name = name_of(alloc, device, block, event)?;
        self.called.push(Called { block, event, name })?;
        Ok(place)
    }

    /// So many entries are pending.
    pub(crate) fn see(&mut self, pending: u64) {
        self.pending = pending;
        self.most = self.most.max(pending);
    }
}
