//! The services.

use fb_words::{ElemType, Format};

/// A channel, and the form of its datagrams.
#[derive(Clone, Copy)]
pub struct Channel {
    pub number: u16,
    pub format: Format,
}

/// A service of this project's profile: IEC 61499-1 edition 2, 6.1. A number or channel, and the types of its values.
#[derive(Drop)]
pub enum Service {
    Input(u16, Vec<ElemType>),
    Output(u16, Vec<ElemType>),
    Publish(Channel, Vec<ElemType>),
    Subscribe(Channel, Vec<ElemType>),
    Delay,
    Cycle,
    Restart,
}
