//! What a device runs, and how far it has come.

use fb_chart::Memory;
use fb_device_tables::Tables;
use fb_sched::{Outbox, Queue, Timers};
use fb_verified::Verified;
use std::rc::Rc;

/// What was checked, which devices share, the number of the device in it, and its tables.
#[derive(Drop)]
pub struct Program {
    pub verified: Rc<Verified>,
    pub number: usize,
    pub tables: Tables,
}

/// How far a device has come.
#[derive(Drop)]
pub struct Running {
    /// The queue of each resource.
    pub queues: Vec<Queue>,
    /// What each block holds.
    pub memory: Memory,
    /// The timers that are armed.
    pub timers: Timers,
    /// What a block emits in one dispatch; empty between dispatches.
    pub outbox: Outbox,
    /// The clock, in milliseconds.
    pub clock: u64,
    /// The next cause; none where all are spent.
    pub next: Option<u64>,
}
