//! Room: network. What joins devices: links that take and give datagrams, in memory and over UDP.
//! Every link counts its failures exactly; `MemoryLink` tells all that it does, and `UdpLink` what it asks of its socket: each peer once, in
//! order, and no datagram of a stranger is handed on. What becomes of datagrams at a socket of the system is outside any contract, and so is how
//! long a wait takes. `fbr serve` runs devices over `UdpLink`.
#![tactic(auto)]

mod addresses;
mod link;
mod memory;
mod socket;
mod udp;

pub use addresses::{Peers, Senders};
pub use link::{Link, Received};
pub use memory::{MemoryLink, Plan};
pub use socket::Socket;
pub use udp::{SocketFault, UdpLink};

#[cfg(test)]
mod fake;
#[cfg(test)]
mod tests;
