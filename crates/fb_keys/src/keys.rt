//! A file of keys.

ghost use Rattle.std.specs.Prelude.{◌≡◌, IfOk, Ok, Some, map, option_map};
ghost use Rattle.std.specs.Str.Lines.{lines};
ghost use Rattle.fb_keys.specs.Keys.{Gives, Makes, Peer, has_number, keys_in, lines_from, owned, with_line};
ghost use Rattle.fb_keys.specs.Views.{keys_of, line_of, peer_of, read_of};

use crate::line::{Line, PeerLine, read_line};
use fb_numbers::words_of;
use std::alloc::{AllocError, Global};

/// The devices of a plant, and which of them this one is.
#[derive(Drop)]
pub struct Keys<'a> {
    pub own: u16,
    /// At most 64, each number once.
    pub peers: Vec<PeerLine<'a>>,
}

/// Why a text is no file of keys. Lines are counted from 1.
#[derive(Clone, Copy)]
pub enum KeysFault {
    /// Memory ran out.
    Memory,
    /// This line says nothing that a line may.
    BadLine(usize),
    /// This line says a number again, or once more which device this one is.
    Again(usize),
    /// This line is that of a 65th device.
    TooMany(usize),
    /// No line says which device this one is, or that one has no line.
    NoOwn,
}

/// What is read so far.
#[derive(Drop)]
struct Reader<'a> {
    own: Option<u16>,
    peers: Vec<PeerLine<'a>>,
}

// Whether a device has this number.
fn has_number(peers: &[PeerLine<'_>], number: u16) -> bool
    ensures { result ≡ has_number number (map peer_of peers.now) }
{
    for peer in peers {
        if peer.number == number {
            return true;
        }
    }
    false
}

impl<'a> Reader<'a> {
    // Takes a device of the line with this number.
    fn add(&mut self, peer: PeerLine<'a>, number: usize) -> Result<(), KeysFault>
        ensures { Makes (read_of self.new) result (with_line number (read_of self.old) (Some (Peer (peer_of peer.entry)))) }
    {
        if has_number(self.peers.as_slice(), peer.number) {
            return Err(KeysFault::Again(number));
        }
        if self.peers.len() >= 64 {
            return Err(KeysFault::TooMany(number));
        }
        match self.peers.push(peer) {
            Ok(()) => Ok(()),
            Err(_) => Err(KeysFault::Memory),
        }
    }

    // Takes what the line with this number says.
    fn take(&mut self, said: Option<Line<'a>>, number: usize) -> Result<(), KeysFault>
        ensures { Makes (read_of self.new) result (with_line number (read_of self.old) (option_map line_of said.entry)) }
    {
        match said {
            None => Err(KeysFault::BadLine(number)),
            Some(Line::Blank) => Ok(()),
            Some(Line::Own(own)) => {
                if self.own.is_some() {
                    return Err(KeysFault::Again(number));
                }
                self.own = Some(own);
                Ok(())
            }
            Some(Line::Peer(peer)) => self.add(peer, number),
        }
    }
}

// The devices that were read, where one of them is this one.
fn owned<'a>(reader: Reader<'a>) -> Result<Keys<'a>, KeysFault>
    ensures { Gives keys_of result (owned reader.entry.own (map peer_of reader.entry.peers.items)) }
{
    let Reader { own, peers } = reader;
    match own {
        Some(own) => {
            if has_number(peers.as_slice(), own) {
                Ok(Keys { own, peers })
            } else {
                Err(KeysFault::NoOwn)
            }
        }
        None => Err(KeysFault::NoOwn),
    }
}

// The lines of a text.
fn lines_of(alloc: Global, text: &str) -> Result<Vec<&str>, AllocError>
    ensures { IfOk result (λ v. map (λ line. line.now) v.items ≡ lines text.now) }
{
    text.lines().collect(alloc)
}

// Takes the lines of a text, one after another.
fn take_lines<'a>(
    alloc: Global,
    reader: &mut Reader<'a>,
    lines: &[&'a str],
) -> Result<(), KeysFault>
    ensures { Makes (read_of reader.new) result (lines_from 1 (Ok (read_of reader.old)) (map (λ line. line.now) lines.now)) }
{
    let mut number = 0;
    for line in lines {
        number += 1;
        let words = match words_of(alloc, line) {
            Ok(words) => words,
            Err(_) => return Err(KeysFault::Memory),
        };
        reader.take(read_line(words.as_slice()), number)?;
    }
    Ok(())
}

/// The devices that a text says, a line each: `NUMBER ADDRESS KEY`, perhaps with a second key and a rate behind it, `own NUMBER` once, and lines that begin
/// with `#`.
/// The fault of the first line that has one.
pub fn read_keys<'a>(alloc: Global, text: &'a str) -> Result<Keys<'a>, KeysFault>
    ensures { Gives keys_of result (keys_in text.now) }
{
    let lines = match lines_of(alloc, text) {
        Ok(lines) => lines,
        Err(_) => return Err(KeysFault::Memory),
    };
    let mut reader = Reader {
        own: None,
        peers: Vec::new(alloc),
    };
    match take_lines(alloc, &mut reader, lines.as_slice()) {
        Ok(()) => owned(reader),
        Err(fault) => Err(fault),
    }
}
