//! Room: cases. What the calls of a device and of a world answer for a case, as short text.
//! No contracts: the answers are compared with stored ones.
#![tactic(auto)]

mod datagram;
mod device;
mod link;
mod turn;
mod world;

pub use datagram::datagrams;
pub use device::devices;
pub use link::links;
pub use turn::turns;
pub use world::worlds;
