//! Room: program. Addresses as words of a command write them: a port of this machine, or an IP address of either version and a port.
//! `read_endpoint` and `read_ip` answer exactly what their definitions read of a word, and nothing where that is no address.
#![tactic(auto)]

mod endpoint;
mod ip;

pub use endpoint::read_endpoint;
pub use ip::read_ip;
