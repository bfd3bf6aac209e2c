//! What a world is asked, and what it answers.

use fb_device::Answer;
use std::alloc::AllocError;

/// An event of a world. Devices are numbered from 0 in text order, and datagrams from 1 as they are sent.
#[derive(Drop)]
pub enum WorldEvent {
    /// An offer at a device, at the INPUT of a number, with its values.
    Offer(u16, u16, Vec<i64>),
    /// A moment of the clock of a device, in milliseconds.
    Tick(u16, u64),
    /// A dispatch at a device, of the resource of a number.
    Dispatch(u16, u16),
    /// A datagram, by its number, comes to a device.
    Deliver(u64, u16),
}

/// What a world answers.
#[derive(Drop)]
pub enum WorldAnswer {
    /// What the device answered, and the number of the datagram that it sent.
    Answered(Answer, Option<u64>),
    /// There is no such device or datagram. Nothing has changed.
    Unknown,
}

/// Memory ran out, or the world has seen 2^64 - 1 dispatches. Nothing has changed.
#[derive(Clone, Copy)]
pub struct OutOfMemory;

impl From<AllocError> for OutOfMemory {
    fn from(_: AllocError) -> OutOfMemory {
        OutOfMemory
    }
}
