//! The lines of turns.

ghost use Rattle.std.specs.Prelude.{◌≡◌, ◌==◌, ◌&&◌, codes, IfOk, IfSome, map, option_map};
ghost use Rattle.std.specs.Str.{bytes_eq};
ghost use Rattle.fb_model.specs.CertificateText.{words};
ghost use Rattle.fb_record.specs.Records.{came_in, datagram_in, entry_in, is_within, turn_in};
ghost use Rattle.fb_record.specs.Views.{came_of, entry_of};

use crate::recorder::SIZE;
use fb_numbers::{read_wide_number, words_of};
use hex::FromHexError;
use std::alloc::{AllocError, Global};

/// What came to a device in a turn.
#[derive(Drop)]
pub struct Entry {
    /// The moment, in milliseconds.
    pub now: u64,
    /// The datagrams, in order: at most 16, each of at most 160 bytes.
    pub datagrams: Vec<Vec<u8>>,
    /// Whether a receive failed behind them, which ends the device.
    pub is_down: bool,
}

// The datagram that a word writes.
fn read_datagram(alloc: Global, word: &str) -> Result<Option<Vec<u8>>, AllocError>
    ensures { IfOk result (λ d. option_map (λ v. v.items) d ≡ datagram_in word.now) }
{
    if word == "-" {
        return Ok(Some(Vec::new(alloc)));
    }
    match hex::decode(alloc, word) {
        Ok(bytes) => {
            if bytes.len() <= SIZE {
                Ok(Some(bytes))
            } else {
                Ok(None)
            }
        }
        Err(FromHexError::OutOfMemory) => Err(AllocError),
        Err(_) => Ok(None),
    }
}

// Whether a word says that a receive failed, where so many words stand behind it.
fn is_end(word: &str, left: usize) -> bool
    ensures { result ≡ (bytes_eq word.now (codes "down") && (left == 0)) }
{
    word == "down" && left == 0
}

// What words say has come.
fn read_came(alloc: Global, now: u64, words: &[&str]) -> Result<Option<Entry>, AllocError>
    ensures { IfOk result (λ e. (option_map came_of e ≡ came_in (map (λ w. w.now) words.now)) × IfSome e (λ x. x.now ≡ now)) }
{
    let mut datagrams = Vec::new(alloc);
    let mut left = words.len();
    for word in words {
        left -= 1;
        if is_end(word, left) {
            return Ok(Some(Entry {
                now,
                datagrams,
                is_down: true,
            }));
        }
        match read_datagram(alloc, word)? {
            Some(bytes) => datagrams.push(bytes)?,
            None => return Ok(None),
        }
    }
    Ok(Some(Entry {
        now,
        datagrams,
        is_down: false,
    }))
}

// Whether so many datagrams are no more than a turn takes.
fn fits(count: usize, is_down: bool) -> bool
    ensures { result ≡ is_within count is_down }
{
    if is_down { count < 16 } else { count <= 16 }
}

// The turn of a moment with what words say has come.
fn read_turn(alloc: Global, now: &str, words: &[&str]) -> Result<Option<Entry>, AllocError>
    ensures { IfOk result (λ e. option_map entry_of e ≡ turn_in now.now (map (λ w. w.now) words.now)) }
{
    match read_wide_number(now) {
        Some(now) => match read_came(alloc, now, words)? {
            Some(entry) => {
                if fits(entry.datagrams.len(), entry.is_down) {
                    Ok(Some(entry))
                } else {
                    Ok(None)
                }
            }
            None => Ok(None),
        },
        None => Ok(None),
    }
}

/// The turn that a line says; `None` where it says none.
pub fn read_entry(alloc: Global, line: &str) -> Result<Option<Entry>, AllocError>
    ensures { IfOk result (λ e. option_map entry_of e ≡ entry_in (words line.now)) }
{
    let words = words_of(alloc, line)?;
    match words.as_slice() {
        [verb, now, rest @ ..] => {
            if *verb == "turn" {
                read_turn(alloc, now, rest)
            } else {
                Ok(None)
            }
        }
        _ => Ok(None),
    }
}
