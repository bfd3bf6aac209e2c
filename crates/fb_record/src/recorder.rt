//! How turns are recorded.

ghost use Rattle.std.specs.Prelude.{◌≡◌, ◌++◌, ◌∷◌, [], true, false, IfOk};
ghost use Rattle.std.specs.Io.KnownBytes.{Appends};
ghost use Rattle.fb_record.specs.Records.{end_text, start_text, word_of};

use std::alloc::{AllocError, Global};
use std::io::Write;

/// The most bytes of a datagram that a turn takes.
pub(crate) const SIZE: usize = 160;

/// The room for a line: that of a turn with sixteen datagrams, each of 160 bytes.
const ROOM: usize = 5_200;

/// Writes the record of a device's turns into a stream, a line a turn. A line that cannot be written ends the record, and what is written is whole lines
/// then, perhaps with a part of one behind them. Only `new` takes memory.
#[derive(Drop)]
pub struct Recorder<F> {
    stream: F,
    line: Vec<u8>,
    is_lost: bool,
}

// Puts a text behind a line, and answers whether there was room.
fn put(line: &mut Vec<u8>, text: &[u8]) -> bool
    ensures { result ≡ true → line.new.items ≡ line.old.items ++ text.now }
{
    line.extend_from_slice(text).is_ok()
}

// Puts a datagram behind a line, as a word, and answers whether there was room.
fn put_datagram(line: &mut Vec<u8>, bytes: &[u8]) -> bool
    ensures { result ≡ true → line.new.items ≡ line.old.items ++ word_of bytes.now }
{
    if bytes.is_empty() {
        return put(line, b"-");
    }
    if bytes.len() > SIZE {
        return false;
    }
    let mut digits = [0u8; 2 * SIZE];
    let digits = &mut digits[..2 * bytes.len()];
    match hex::encode_to_slice(bytes, digits) {
        Ok(()) => put(line, digits),
        Err(_) => false,
    }
}

impl<F: Write + Drop> Recorder<F> {
    /// The record that a stream takes.
    pub fn new(alloc: Global, stream: F) -> Result<Recorder<F>, AllocError>
        ensures { IfOk result (λ r. (r.stream ≡ stream) × (r.is_lost ≡ false)) }
    {
        Ok(Recorder {
            stream,
            line: Vec::with_capacity(alloc, ROOM)?,
            is_lost: false,
        })
    }
}

impl<F: Write> Recorder<F> {
    /// Whether the record has ended, since a line could not be written.
    pub fn is_lost(&self) -> bool
        ensures { result ≡ self.now.is_lost }
    {
        self.is_lost
    }

    /// A turn begins, at a moment in milliseconds.
    pub fn begin(&mut self, now: u64)
        ensures stream { self.new.stream ≡ self.old.stream }
        ensures line { self.new.is_lost ≡ false → (self.old.is_lost ≡ false) × (self.new.line.items ≡ start_text now) }
    {
        self.line.clear();
        if write!(&mut self.line, "turn {now}").is_err() {
            self.is_lost = true;
        }
    }

    /// A datagram came.
    pub fn came(&mut self, bytes: &[u8])
        ensures stream { self.new.stream ≡ self.old.stream }
        ensures line { self.new.is_lost ≡ false → (self.old.is_lost ≡ false) × (self.new.line.items ≡ self.old.line.items ++ (32 ∷ word_of bytes.now)) }
    {
        if !put(&mut self.line, b" ") || !put_datagram(&mut self.line, bytes) {
            self.is_lost = true;
        }
    }

    /// The turn has ended, by a receive that failed where it is down. Its line is written.
    pub fn end(&mut self, is_down: bool)
        ensures { self.new.is_lost ≡ false → (self.old.is_lost ≡ false) × Appends (F.contents self.old.stream) (F.contents self.new.stream) (self.old.line.items ++ (end_text is_down ++ 10 ∷ [])) }
    {
        if self.is_lost {
            return;
        }
        if is_down && !put(&mut self.line, b" down") || !put(&mut self.line, b"\n") {
            self.is_lost = true;
            return;
        }
        if self.stream.write_all(&self.line).is_err() || self.stream.flush().is_err() {
            self.is_lost = true;
        }
    }
}
