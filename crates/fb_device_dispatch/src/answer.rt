//! What a dispatch answers.

use fb_chart::Effect;

/// A cause that has ended: its number, all its steps, and the steps of the WEIGHT row of the arrival that opened it.
#[derive(Clone, Copy)]
pub struct Ended {
    pub cause: u64,
    pub total: u64,
    pub bound: u64,
}

/// One dispatch: the cause of the entry, its block and event by number, the steps, what it did outside of the device, and the end of the
/// cause where none of its entries is left.
#[derive(Drop)]
pub struct Ran {
    pub cause: u64,
    pub block: u16,
    pub event: u16,
    pub steps: u64,
    pub effect: Option<Effect>,
    pub ended: Option<Ended>,
}

/// What a dispatch answers.
#[derive(Drop)]
pub enum Dispatched {
    /// Nothing is pending, or there is no such resource.
    Idle,
    Ran(Ran),
}
