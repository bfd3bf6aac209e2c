//! What a stimulus made the outside see, and whether that is what was wanted.

use fb_device::Denied;
use fbr_story::{Wanted, WantedWrite};
use std::alloc::{AllocError, Global};

/// What the outside saw of a device.
#[derive(Drop)]
pub(crate) struct Seen {
    pub(crate) device: u16,
    pub(crate) what: Sight,
}

/// What the outside saw.
#[derive(Drop)]
pub(crate) enum Sight {
    /// The OUTPUT of a number wrote values.
    Write(u16, Vec<i64>),
    /// An arrival was denied.
    Denied(Denied),
    /// A datagram was denied.
    DeniedDatagram(Denied),
}

/// All that the outside saw, in order, and the steps that were taken on all devices.
#[derive(Drop)]
pub(crate) struct Sights {
    pub(crate) all: Vec<Seen>,
    pub(crate) steps: u64,
}

impl Seen {
    // The number of the denial, if it is one.
    fn denial(&self) -> Option<u8> {
        match &self.what {
            Sight::Write(_, _) => None,
            Sight::Denied(denied) | Sight::DeniedDatagram(denied) => Some(denied.code()),
        }
    }
}

// Whether a write is what was wanted.
fn is_write(wanted: &WantedWrite, output: u16, values: &[i64]) -> bool {
    if wanted.output != output || wanted.values.len() != values.len() {
        return false;
    }
    for (wanted, value) in wanted.values.iter().zip(values) {
        if let Some(number) = wanted {
            if *number != *value {
                return false;
            }
        }
    }
    true
}

// The place of the first write that is wanted of a device, from a place on.
fn next_wanted(wanted: &Wanted, device: u16, from: usize) -> Option<usize> {
    for at in from..wanted.writes.len() {
        if let Some(write) = wanted.writes.get(at) {
            if write.device == device {
                return Some(at);
            }
        }
    }
    None
}

// Whether this write is wanted at this place, or behind all that are wanted.
fn is_wanted_at(wanted: &Wanted, place: Option<usize>, output: u16, values: &[i64]) -> bool {
    match place {
        Some(at) => match wanted.writes.get(at) {
            Some(write) => is_write(write, output, values),
            None => false,
        },
        None => wanted.is_open,
    }
}

// Whether a denial of this number is wanted.
fn is_denial_wanted(wanted: &Wanted, code: u8) -> bool {
    for denial in &wanted.denials {
        match denial {
            None => return true,
            Some(number) => {
                if *number == code {
                    return true;
                }
            }
        }
    }
    false
}

impl Sights {
    /// Nothing was seen.
    pub(crate) fn new(alloc: Global) -> Sights {
        Sights {
            all: Vec::new(alloc),
            steps: 0,
        }
    }

    /// The outside sees something of a device.
    pub(crate) fn see(&mut self, device: u16, what: Sight) -> Result<(), AllocError> {
        self.all.push(Seen { device, what })?;
        Ok(())
    }

    // Whether the writes of a device are those that were wanted.
    fn has_writes(&self, wanted: &Wanted, device: u16) -> bool {
        let mut from: usize = 0;
        for seen in &self.all {
            if let Sight::Write(output, values) = &seen.what {
                if seen.device == device {
                    let next = next_wanted(wanted, device, from);
                    if !is_wanted_at(wanted, next, *output, values) {
                        return false;
                    }
                    from = next.unwrap_or(from).saturating_add(1);
                }
            }
        }
        next_wanted(wanted, device, from).is_none()
    }

    /// Whether something was denied.
    pub(crate) fn has_denial(&self) -> bool {
        for seen in &self.all {
            if seen.denial().is_some() {
                return true;
            }
        }
        false
    }

    // Whether a denial of this number, or of any, was seen.
    fn has_wanted_denial(&self, wanted: Option<u8>) -> bool {
        for seen in &self.all {
            if let Some(code) = seen.denial() {
                match wanted {
                    None => return true,
                    Some(number) => {
                        if number == code {
                            return true;
                        }
                    }
                }
            }
        }
        false
    }

    // Whether each denial was wanted, and each that was wanted was seen.
    fn has_denials(&self, wanted: &Wanted) -> bool {
        for seen in &self.all {
            if let Some(code) = seen.denial() {
                if !is_denial_wanted(wanted, code) {
                    return false;
                }
            }
        }
        for denial in &wanted.denials {
            if !self.has_wanted_denial(*denial) {
                return false;
            }
        }
        true
    }

    /// Whether this is what was wanted of so many devices.
    pub(crate) fn are(&self, wanted: &Wanted, devices: u16) -> bool {
        for device in 0..devices {
            if !self.has_writes(wanted, device) {
                return false;
            }
        }
        self.has_denials(wanted)
    }
}
