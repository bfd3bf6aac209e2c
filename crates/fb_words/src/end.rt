//! The ends of connections.

use crate::elem_type::ElemType;

/// What an end is: where events come from and go to, and where values do.
#[derive(Clone, Copy)]
pub enum Way {
    EventSource,
    EventTarget,
    ValueSource,
    ValueTarget,
}

/// What a port carries: events, or values of a type.
#[derive(Clone, Copy)]
pub enum Carried {
    Events,
    Values(ElemType),
}
