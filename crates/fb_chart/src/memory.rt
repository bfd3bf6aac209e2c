//! What the blocks of a device hold.

use crate::{Standing, Store};

/// What a block remembers from one dispatch to the next, beside its values.
#[derive(Clone, Copy)]
pub enum Condition {
    /// The number of a chart's current state: IEC 61499-1 edition 2, 5.2.2.
    State(u16),
    /// What a service remembers.
    Service(Standing),
}

/// What the blocks of a device hold, each by its number: working values of all its variables, issued values of its outputs, and what it remembers.
#[derive(Drop)]
pub struct Memory {
    pub own: Vec<Store>,
    pub issued: Vec<Store>,
    pub conditions: Vec<Condition>,
}
