//! Reading of systems, device by device.

use crate::blocks::Wired;
use crate::reader::Reader;
use fb_read::next_offset;
use fb_tree::{DeviceTree, Name, ResourceTree, SystemTree};
use fb_words::Mark;
use fbr_recovery_found::Found;
use std::alloc::AllocError;

// In which order the parts of a resource are.
fn rank_of(mark: Mark) -> u8 {
    match mark {
        Mark::Fbs => 1,
        Mark::EventConnections => 2,
        _ => 3,
    }
}

// Whether a word begins a resource, or a part of one.
fn begins_resource(mark: Option<Mark>) -> bool {
    matches!(
        mark,
        Some(Mark::Resource | Mark::Fbs | Mark::EventConnections | Mark::DataConnections)
    )
}

// Whether a word ends what is around a resource, or begins another one there.
fn is_around_resource(mark: Option<Mark>) -> bool {
    matches!(mark, Some(Mark::EndResource | Mark::Resource) | None) || is_around_device(mark)
}

// Whether a word ends what is around a device, or begins another one there.
fn is_around_device(mark: Option<Mark>) -> bool {
    matches!(mark, Some(Mark::EndDevice | Mark::Device | Mark::EndSystem))
}

impl<'t> Reader<'t> {
    // Goes behind the word that ends what was read, or tells that it is missing.
    fn close(&mut self, closing: Mark, found: &mut Found<'_>) -> Result<(), AllocError> {
        if self.next() == Some(closing) {
            self.pass();
            self.is_lost = false;
            return Ok(());
        }
        self.tell_here(found)
    }

    // The name behind the word that begins what is next; an empty one where that word is missing, which is told.
    fn name_behind(&mut self, word: Mark, found: &mut Found<'_>) -> Result<Name, AllocError> {
        if self.next() == Some(word) {
            self.pass();
            return self.name(found);
        }
        self.tell_here(found)?;
        Ok(Name {
            text: String::new(self.alloc),
            at: next_offset(self.rest()),
        })
    }

    // The resource that is next.
    fn resource(&mut self, found: &mut Found<'_>) -> Result<ResourceTree, AllocError> {
        let name = self.name_behind(Mark::Resource, found)?;
        let mut wired = Wired::none(self.alloc);
        let mut last: u8 = 0;
        for _ in self.at..self.end {
            let mark = self.next();
            if self.at >= self.end || (mark.is_some() && is_around_resource(mark)) {
                break;
            }
            match mark {
                Some(mark @ (Mark::Fbs | Mark::EventConnections | Mark::DataConnections)) => {
                    if rank_of(mark) <= last {
                        self.tell_here(found)?;
                    }
                    self.is_lost = false;
                    last = rank_of(mark);
                    wired.read(mark, self, found)?;
                }
                _ => self.skip_stray(found)?,
            }
        }
        self.close(Mark::EndResource, found)?;
        Ok(ResourceTree {
            name,
            network: wired.tree(),
        })
    }

    // The device that is next.
    fn device(&mut self, found: &mut Found<'_>) -> Result<DeviceTree, AllocError> {
        let name = self.name_behind(Mark::Device, found)?;
        let mut resources = Vec::new(self.alloc);
        for _ in self.at..self.end {
            let mark = self.next();
            if self.at >= self.end || is_around_device(mark) {
                break;
            }
            if begins_resource(mark) {
                resources.push(self.resource(found)?)?;
            } else {
                self.skip_stray(found)?;
            }
        }
        self.close(Mark::EndDevice, found)?;
        Ok(DeviceTree { name, resources })
    }

    /// The system that is next.
    pub(crate) fn system(&mut self, found: &mut Found<'_>) -> Result<SystemTree, AllocError> {
        let name = self.name_behind(Mark::System, found)?;
        let mut devices = Vec::new(self.alloc);
        for _ in self.at..self.end {
            let mark = self.next();
            if self.at >= self.end || mark == Some(Mark::EndSystem) {
                break;
            }
            if mark == Some(Mark::Device) || begins_resource(mark) {
                devices.push(self.device(found)?)?;
            } else {
                self.skip_stray(found)?;
            }
        }
        self.close(Mark::EndSystem, found)?;
        Ok(SystemTree { name, devices })
    }
}
