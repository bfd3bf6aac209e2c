//! IP addresses with a port.

ghost use Rattle.std.specs.Prelude.{◌≡◌, option_map};
ghost use Rattle.fb_addresses.specs.Addresses as addresses;
ghost use Rattle.fb_addresses.specs.Addresses.{endpoint_in, endpoint_of, full_in, reachable};

use fb_numbers::read_number;
use std::net::{Ipv4Addr, SocketAddr, SocketAddrV4};
use std::str::FromStr;

// A port of this machine, 127.0.0.1.
fn here(port: u16) -> SocketAddr
    ensures { endpoint_of result ≡ addresses.here port }
{
    SocketAddr::V4(SocketAddrV4::new(Ipv4Addr::LOCALHOST, port))
}

// An IP address and a port.
fn read_full(word: &str) -> Option<SocketAddr>
    ensures { option_map endpoint_of result ≡ full_in word.now }
{
    match SocketAddr::from_str(word) {
        Ok(address) => Some(address),
        Err(_) => None,
    }
}

// An address whose port is one.
fn reachable(address: SocketAddr) -> Option<SocketAddr>
    ensures { option_map endpoint_of result ≡ reachable (endpoint_of address) }
{
    if address.port() == 0 {
        None
    } else {
        Some(address)
    }
}

/// The address that a word writes: `PORT`, which is one of this machine (127.0.0.1), `ADDRESS:PORT` of IPv4, or `[ADDRESS]:PORT` of IPv6 (RFC 4291,
/// section 2.2, perhaps with `%` and a scope behind the address). A port is a number of 1 to 65535.
pub fn read_endpoint(word: &str) -> Option<SocketAddr>
    ensures { option_map endpoint_of result ≡ endpoint_in word.now }
{
    match read_number(word) {
        Some(port) => reachable(here(port)),
        None => match read_full(word) {
            Some(address) => reachable(address),
            None => None,
        },
    }
}
