//! Sealed datagrams as bytes.

ghost use Rattle.std.specs.Prelude.{◌≡◌, ◌≤◌, ◌+◌, ◌++◌, length, true, false, MatchOption};
ghost use Rattle.fb_seal.specs.Seal.{sealed};
ghost use Rattle.fb_seal.specs.Reading.{body_of, envelope_in, envelope_of, has_form, has_head, is_tagged, reading, reading_of};

use crate::tags::{is_same, tag};
use arrayvec::ArrayVec;

/// A sealed datagram: at most 160 bytes of the datagram itself, and 28 more.
pub type SealedDatagram = ArrayVec<u8, 188>;

/// What a sealed datagram says.
#[derive(Clone, Copy)]
pub struct Envelope<'a> {
    /// The number of the sender.
    pub sender: u16,
    /// The counter.
    pub counter: u64,
    /// The datagram.
    pub datagram: &'a [u8],
}

/// What bytes are under a key.
#[derive(Clone, Copy)]
pub enum Opened<'a> {
    /// They have not the form of a sealed datagram.
    NotSealed,
    /// They have it, and their tag is not the one under this key.
    Forged,
    /// A datagram that was sealed under this key.
    Message(Envelope<'a>),
}

// Adds bytes behind others.
fn put(bytes: &mut SealedDatagram, more: &[u8])
    requires { length bytes.old.items + length more.now ≤ 188 }
    ensures { bytes.new.items ≡ bytes.old.items ++ more.now }
{
    match bytes.try_extend_from_slice(more) {
        Ok(()) => {}
        Err(_) => unreachable!(),
    }
}

/// Seals a datagram: `S`, the version 1, the sender's number in two bytes and the counter in eight, high bytes first, the datagram, and the tag of all
/// that stands before it.
pub fn seal(key: &[u8; 32], sender: u16, counter: u64, datagram: &[u8]) -> SealedDatagram
    requires { length datagram.now ≤ 160 }
    ensures { result.items ≡ sealed key.now sender counter datagram.now }
{
    let mut bytes = ArrayVec::new();
    put(&mut bytes, b"S\x01");
    put(&mut bytes, &sender.to_be_bytes());
    put(&mut bytes, &counter.to_be_bytes());
    put(&mut bytes, datagram);
    let tag = tag(key, bytes.as_slice());
    put(&mut bytes, &tag);
    bytes
}

// What a body says, where it has the form of one.
fn envelope_in(body: &[u8]) -> Option<Envelope<'_>>
    ensures { MatchOption result (has_head body.now ≡ false) (λ e. (has_head body.now ≡ true) × (envelope_of e ≡ envelope_in body.now)) }
{
    let (mark, rest) = body.split_first_chunk::<2>()?;
    let (sender, rest) = rest.split_first_chunk::<2>()?;
    let (counter, datagram) = rest.split_first_chunk::<8>()?;
    if mark != b"S\x01" {
        return None;
    }
    Some(Envelope {
        sender: u16::from_be_bytes(*sender),
        counter: u64::from_be_bytes(*counter),
        datagram,
    })
}

/// What bytes say, whoever wrote them; `None` where they have not the form of a sealed datagram.
pub fn said_in(bytes: &[u8]) -> Option<Envelope<'_>>
    ensures { MatchOption result (has_form bytes.now ≡ false) (λ e. (has_form bytes.now ≡ true) × (envelope_of e ≡ envelope_in (body_of bytes.now))) }
{
    let (body, _) = bytes.split_last_chunk::<16>()?;
    envelope_in(body)
}

/// Whether the last 16 bytes are the tag of all before them.
pub fn is_tagged(key: &[u8; 32], bytes: &[u8]) -> bool
    ensures { result ≡ is_tagged key.now bytes.now }
{
    match bytes.split_last_chunk::<16>() {
        Some((body, claimed)) => is_same(&tag(key, body), claimed),
        None => false,
    }
}

/// What bytes are under a key. A datagram is told only if its tag is right.
pub fn open<'a>(key: &[u8; 32], bytes: &'a [u8]) -> Opened<'a>
    ensures { reading_of result ≡ reading key.now bytes.now }
{
    match said_in(bytes) {
        Some(said) => {
            if is_tagged(key, bytes) {
                Opened::Message(said)
            } else {
                Opened::Forged
            }
        }
        None => Opened::NotSealed,
    }
}
