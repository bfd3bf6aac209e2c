//! What is checked of datagrams, in words.

ghost use Rattle.std.specs.Prelude.{◌≡◌, ◌==◌, codes, option_and_then, option_map, slice_index};
ghost use Rattle.clap.specs.Words.{first_of, found_of, rows_of};
ghost use Rattle.fb_addresses.specs.Addresses.{endpoint_in, endpoint_of};
ghost use Rattle.fbr_words.specs.Program as program;
ghost use Rattle.fbr_words.specs.Requests.{guard_of};

use crate::given::{flag, given};
use clap::ArgMatches;
use fb_addresses::read_endpoint;
use std::net::SocketAddr;

/// The file of the keys, and the one in which the counters survive a restart.
#[derive(Clone, Copy)]
pub struct Sealing<'a> {
    pub keys: &'a str,
    pub state: &'a str,
}

/// What is checked of datagrams.
#[derive(Clone, Copy)]
pub enum Guard<'a> {
    /// Nothing: they are taken from whoever sends them.
    Unsealed,
    /// They are sealed.
    Sealed(Sealing<'a>),
}

// Whether an address is one of this machine alone: 127.x.y.z, or ::1.
fn is_local(bind: SocketAddr) -> bool
    ensures { result ≡ program.is_local (endpoint_of bind) }
{
    match bind {
        SocketAddr::V4(address) => address.ip().octets()[0] == 127,
        SocketAddr::V6(address) => address.ip().segments() == [0, 0, 0, 0, 0, 0, 0, 1],
    }
}

// The same of one that may be none.
fn is_local_at(bind: Option<SocketAddr>) -> bool
    ensures { result ≡ program.is_local_at (option_map endpoint_of bind) }
{
    match bind {
        Some(bind) => is_local(bind),
        None => false,
    }
}

// What is checked: keys and a state stand together. Without them an address of this machine is wanted, or the word that nothing is to be checked.
fn guard_by<'a>(
    keys: Option<&'a str>,
    state: Option<&'a str>,
    is_unsealed: bool,
    is_local: bool,
) -> Option<Guard<'a>>
    ensures { option_map guard_of result ≡ program.guard_by (option_map (λ name. name.now) keys.entry) (option_map (λ name. name.now) state.entry) is_unsealed is_local }
{
    match (keys, state) {
        (None, None) => {
            if is_local || is_unsealed {
                Some(Guard::Unsealed)
            } else {
                None
            }
        }
        (Some(keys), Some(state)) => {
            if is_unsealed {
                None
            } else {
                Some(Guard::Sealed(Sealing { keys, state }))
            }
        }
        (Some(_), None) => None,
        (None, Some(_)) => None,
    }
}

// The address that a device receives at.
fn bind_in(words: &ArgMatches<'_>) -> Option<SocketAddr>
    ensures { option_map endpoint_of result ≡ option_and_then endpoint_in (first_of (codes "bind") (rows_of (found_of words.now))) }
{
    match given(words, "bind") {
        Some(word) => read_endpoint(word),
        None => None,
    }
}

/// What is checked of datagrams; `None` where of `--keys` and `--state` one is given alone, where `--unsealed` stands beside them, or where nothing is said at
/// an address that others reach.
pub fn guard_in<'a>(words: &ArgMatches<'a>) -> Option<Guard<'a>>
    ensures { option_map guard_of result ≡ program.guard_in (rows_of (found_of words.now)) }
{
    guard_by(
        given(words, "keys"),
        given(words, "state"),
        flag(words, "unsealed"),
        is_local_at(bind_in(words)),
    )
}

/// Whether the words of `serve` lack only a word of what is checked, for what people are told.
pub(crate) fn is_unguarded(words: &ArgMatches<'_>) -> bool {
    bind_in(words).is_some() && guard_in(words).is_none()
}
