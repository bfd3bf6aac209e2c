//! IP addresses.

ghost use Rattle.std.specs.Prelude.{◌≡◌, option_map};
ghost use Rattle.fb_addresses.specs.Addresses.{ip_in, parts_of};

use std::net::IpAddr;
use std::str::FromStr;

/// The IP address that a word writes: four decimal numbers with dots, or groups of hexadecimal digits with colons (RFC 4291, section 2.2).
pub fn read_ip(word: &str) -> Option<IpAddr>
    ensures { option_map parts_of result ≡ ip_in word.now }
{
    match IpAddr::from_str(word) {
        Ok(address) => Some(address),
        Err(_) => None,
    }
}
