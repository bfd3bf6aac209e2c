//! Room: device. A turn of a device over a link: the clock, the datagrams that came, and one dispatch of each resource.
//! `turn` is the run of exactly these events, gives the link what is sent, once, and tells who watches each answer, once and in order. What the link
//! does with a datagram is the link's to say.
#![tactic(auto)]

mod turning;
mod watching;

pub use turning::{LinkDown, Report, turn};
pub use watching::Watch;
