//! The network of a device, in words.

ghost use Rattle.std.specs.Prelude.{◌≡◌, Some, length, map, option_map, codes};
ghost use Rattle.clap.specs.Words.{rows_of, found_of, all_of};
ghost use Rattle.fb_addresses.specs.Addresses.{endpoint_of, parts_of};
ghost use Rattle.fbr_words.specs.Program as program;
ghost use Rattle.fbr_words.specs.Requests.{network_of};

use crate::given::given;
use clap::ArgMatches;
use fb_addresses::{read_endpoint, read_ip};
use fb_link::{Peers, Senders};
use std::net::SocketAddr;

/// The address that a device receives at, those that it sends to, and the IP addresses that it takes datagrams from: anybody's, where none are given.
#[derive(Drop)]
pub struct Network {
    pub bind: SocketAddr,
    pub peers: Peers,
    pub senders: Senders,
}

// The addresses that words write, at most 64.
fn read_peers(words: &[&str]) -> Option<Peers>
    ensures { option_map (λ peers. map endpoint_of peers) result ≡ program.peers_in (Some (map (λ word. word.now) words.now)) }
{
    let mut peers = Peers::new(&[]);
    if words.len() > 64 {
        return None;
    }
    for word in words {
        match read_endpoint(word) {
            Some(address) => peers.push(address),
            None => return None,
        }
    }
    Some(peers)
}

// The IP addresses that words write, at most 64.
fn read_senders(words: &[&str]) -> Option<Senders>
    ensures { option_map (λ senders. map parts_of senders) result ≡ program.senders_in (Some (map (λ word. word.now) words.now)) }
{
    let mut senders = Senders::new(&[]);
    if words.len() > 64 {
        return None;
    }
    for word in words {
        match read_ip(word) {
            Some(address) => senders.push(address),
            None => return None,
        }
    }
    Some(senders)
}

// To whom it sends, nobody where none is given.
fn peers_in(words: &ArgMatches<'_>) -> Option<Peers>
    ensures { option_map (λ peers. map endpoint_of peers) result ≡ program.peers_in (all_of (codes "PEER") (rows_of (found_of words.now))) }
{
    match words.get_raw("PEER") {
        Some(words) => read_peers(words),
        None => Some(Peers::new(&[])),
    }
}

// From whom it takes datagrams, anybody where none is given.
fn senders_in(words: &ArgMatches<'_>) -> Option<Senders>
    ensures { option_map (λ senders. map parts_of senders) result ≡ program.senders_in (all_of (codes "from") (rows_of (found_of words.now))) }
{
    match words.get_raw("from") {
        Some(words) => read_senders(words),
        None => Some(Senders::new(&[])),
    }
}

/// The network that words tell; `None` where an address is none, or there are more than 64 peers or senders.
pub fn network_in(words: &ArgMatches<'_>) -> Option<Network>
    ensures { option_map network_of result ≡ program.network_in (rows_of (found_of words.now)) }
{
    Some(Network {
        bind: read_endpoint(given(words, "bind")?)?,
        peers: peers_in(words)?,
        senders: senders_in(words)?,
    })
}
