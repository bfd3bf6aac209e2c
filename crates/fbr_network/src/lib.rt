//! Room: program. The network between the devices of a story: datagrams that wait, and what becomes of the next ones.
//! No contracts: what stories tell of it is tested.
#![tactic(auto)]

mod network;

pub use network::{Datagram, Network};
