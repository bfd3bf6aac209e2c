//! Room: network. Datagrams: messages between devices, and how they are spelled in bytes, in two versions.
//! `encode` writes the bytes that spell a message; `decode` answers a message just where bytes spell one, and else the first field at fault.
#![tactic(auto)]

mod decoding;
mod encoding;
mod fault;
mod law;
mod message;

pub use decoding::decode;
pub use encoding::{Datagram, encode};
pub use fault::WireFault;
pub use law::faulty_bytes_spell_nothing;
pub use message::{Message, Purpose, Stamp, Typed};
