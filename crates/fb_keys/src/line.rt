//! The lines of a file of keys.

ghost use Rattle.std.specs.Prelude.{◌≡◌, ◌==◌, map, option_map, slice_index};
ghost use Rattle.fb_addresses.specs.Addresses.{endpoint_of};
ghost use Rattle.fb_keys.specs.Keys as book;
ghost use Rattle.fb_keys.specs.Keys.{address_in, extras_in, extras_with, is_comment, key_in, line_in, own_in, peer_in, peer_with};
ghost use Rattle.fb_keys.specs.Views.{extras_of, key_of, line_of, peer_of};

use crate::rate::{read_per_second, read_rate};
use fb_addresses::read_endpoint;
use fb_numbers::read_number;
use fb_pace::Rate;
use std::net::SocketAddr;

/// A key in words.
#[derive(Clone, Copy)]
pub enum Key<'a> {
    /// Its 32 bytes, which 64 hexadecimal digits write.
    Digits([u8; 32]),
    /// The file of this name holds the digits.
    File(&'a str),
}

/// A device in words: its number, where it receives, its key, a second one beside it while keys are changed, and how often it may send.
#[derive(Clone, Copy)]
pub struct PeerLine<'a> {
    pub number: u16,
    /// Nothing is sent to a device without one.
    pub address: Option<SocketAddr>,
    pub key: Key<'a>,
    pub second: Option<Key<'a>>,
    /// A device without one may send as often as it likes.
    pub rate: Option<Rate>,
}

// What stands behind the key of a device.
#[derive(Clone, Copy)]
struct Extras<'a> {
    second: Option<Key<'a>>,
    rate: Option<Rate>,
}

/// What a line says.
#[derive(Clone, Copy)]
pub enum Line<'a> {
    /// Nothing: it has no words, or the first begins with `#`.
    Blank,
    /// This device has this number.
    Own(u16),
    /// A device of the plant.
    Peer(PeerLine<'a>),
}

// The key that a word says.
fn read_key(word: &str) -> Key<'_>
    ensures { key_of result ≡ key_in word.now }
{
    let mut bytes = [0u8; 32];
    match hex::decode_to_slice(word, &mut bytes) {
        Ok(()) => Key::Digits(bytes),
        Err(_) => Key::File(word),
    }
}

// The address that a word says, or with `-` that there is none.
fn read_address(word: &str) -> Option<Option<SocketAddr>>
    ensures { option_map (λ a. option_map endpoint_of a) result ≡ address_in word.now }
{
    if word == "-" {
        return Some(None);
    }
    match read_endpoint(word) {
        Some(address) => Some(Some(address)),
        None => None,
    }
}

// What stands behind the key of a device, where its rate is one.
fn extras_with<'a>(second: Option<Key<'a>>, rate: Option<Option<Rate>>) -> Option<Extras<'a>>
    ensures { option_map extras_of result ≡ extras_with (option_map key_of second.entry) rate }
{
    match rate {
        Some(rate) => Some(Extras { second, rate }),
        None => None,
    }
}

// What words say behind the key of a device.
fn read_extras<'a>(words: &[&'a str]) -> Option<Extras<'a>>
    ensures { option_map extras_of result ≡ extras_in (map (λ w. w.now) words.now) }
{
    match words {
        [] => extras_with(None, Some(None)),
        [first, rest @ ..] => {
            if read_per_second(first).is_some() {
                extras_with(None, read_rate(words))
            } else {
                extras_with(Some(read_key(first)), read_rate(rest))
            }
        }
    }
}

// A device, where its number, its address and what stands behind its key are ones.
fn peer_with<'a>(
    number: Option<u16>,
    address: Option<Option<SocketAddr>>,
    key: Key<'a>,
    extras: Option<Extras<'a>>,
) -> Option<PeerLine<'a>>
    ensures { option_map peer_of result ≡ peer_with number (option_map (λ a. option_map endpoint_of a) address) (key_of key.entry) (option_map extras_of extras.entry) }
{
    match (number, address, extras) {
        (Some(number), Some(address), Some(extras)) => Some(PeerLine {
            number,
            address,
            key,
            second: extras.second,
            rate: extras.rate,
        }),
        _ => None,
    }
}

// The device that words say.
fn read_peer<'a>(words: &[&'a str]) -> Option<PeerLine<'a>>
    ensures { option_map peer_of result ≡ peer_in (map (λ w. w.now) words.now) }
{
    match words {
        [number, address, key, rest @ ..] => peer_with(
            read_number(number),
            read_address(address),
            read_key(key),
            read_extras(rest),
        ),
        _ => None,
    }
}

// This device's number, which is the only word behind `own`.
fn read_own<'a>(words: &[&'a str]) -> Option<Line<'a>>
    ensures { option_map line_of result ≡ own_in (map (λ w. w.now) words.now) }
{
    match words {
        [number] => match read_number(number) {
            Some(number) => Some(Line::Own(number)),
            None => None,
        },
        _ => None,
    }
}

// Whether a word begins with `#`.
fn is_comment(word: &str) -> bool
    ensures { result ≡ is_comment word.now }
{
    match word.as_bytes() {
        [] => false,
        [first, ..] => *first == b'#',
    }
}

/// What a line says, by its words; `None` where it says nothing that a line may.
pub fn read_line<'a>(words: &[&'a str]) -> Option<Line<'a>>
    ensures { option_map line_of result ≡ line_in (map (λ w. w.now) words.now) }
{
    match words {
        [] => Some(Line::Blank),
        [first, rest @ ..] => {
            if is_comment(first) {
                Some(Line::Blank)
            } else if *first == "own" {
                read_own(rest)
            } else {
                match read_peer(words) {
                    Some(peer) => Some(Line::Peer(peer)),
                    None => None,
                }
            }
        }
    }
}
