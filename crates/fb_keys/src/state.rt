//! The state in which counters survive a restart.

ghost use Rattle.std.specs.Prelude.{◌≡◌, ◌++◌, ◌<◌, IfErr, IfOk, IfSome, string_bytes, length};
ghost use Rattle.std.specs.List.{position_from};
ghost use Rattle.fb_keys.specs.State.{body_text, end_line, end_with, entry_line, is_of, line_with, mark_of, raised, state_text, tail_of, upto_in};
ghost use Rattle.fb_keys.specs.Views.{state_of};

use fb_seal::tag;
use std::alloc::{AllocError, Global};

/// What is written down of a peer under a key: its number, the mark of the key, and the first counter that was not allowed to it.
#[derive(Clone, Copy)]
pub struct Entry {
    pub number: u16,
    pub mark: [u8; 16],
    pub upto: u64,
}

/// The first own counter that may be used in the next life, and the peers of which something was taken.
#[derive(Drop)]
pub struct State {
    pub own: u64,
    pub entries: Vec<Entry>,
}

/// The mark of a key, which tells it from others and does not give it away.
pub fn mark_of(key: &[u8; 32]) -> [u8; 16]
    ensures { result ≡ mark_of key.now }
{
    tag(key, b"fbr-state")
}

// Whether an entry is of a peer under a key.
fn is_of(entry: &Entry, number: u16, mark: &[u8; 16]) -> bool
    ensures { result ≡ is_of number mark.now entry.now }
{
    entry.number == number && entry.mark == *mark
}

// The place of the first entry of a peer under a key.
fn position(entries: &[Entry], number: u16, mark: &[u8; 16]) -> Option<usize>
    ensures first { result ≡ position_from (is_of number mark.now) 0 entries.now }
    ensures within { IfSome result (λ place. place < length entries.now) }
{
    for place in 0..entries.len() {
        if is_of(&entries[place], number, mark) {
            return Some(place);
        }
    }
    None
}

// The first counter that was not allowed to a peer under a key.
fn upto_in(entries: &[Entry], number: u16, mark: &[u8; 16]) -> u64
    ensures { result ≡ upto_in number mark.now entries.now }
{
    for entry in entries {
        if is_of(entry, number, mark) {
            return entry.upto;
        }
    }
    0
}

impl State {
    /// The first counter that was not allowed to a peer under a key: 0 where nothing is written of it.
    pub fn upto(&self, number: u16, mark: &[u8; 16]) -> u64
        ensures { result ≡ upto_in number mark.now self.now.entries.items }
    {
        upto_in(self.entries.as_slice(), number, mark)
    }

    /// Allows a peer more counters under a key; or memory runs out, and all stays as it is.
    pub fn raise(&mut self, number: u16, mark: [u8; 16], upto: u64) -> Result<(), AllocError>
        ensures raised { IfOk result (λ _. self.new.entries.items ≡ raised number mark upto self.old.entries.items) }
        ensures kept { IfErr result (λ _. self.new.entries.items ≡ self.old.entries.items) }
        ensures own { self.new.own ≡ self.old.own }
    {
        match position(self.entries.as_slice(), number, &mark) {
            Some(place) => {
                let mut entry = self.entries[place];
                entry.upto = entry.upto.max(upto);
                self.entries[place] = entry;
                Ok(())
            }
            None => self
                .entries
                .push(Entry { number, mark, upto })
                .map_err(AllocError::from),
        }
    }
}

// The end of the line of an entry.
fn tail_of(alloc: Global, upto: u64) -> Result<String, AllocError>
    ensures { IfOk result (λ tail. string_bytes tail ≡ tail_of upto) }
{
    format!(in alloc; " {upto}\n")
}

// The line of an entry, whose mark these digits write.
fn line_with(alloc: Global, number: u16, mark: &str, upto: u64) -> Result<String, AllocError>
    ensures { IfOk result (λ line. string_bytes line ≡ line_with number mark.now upto) }
{
    let tail = tail_of(alloc, upto)?;
    let mut line = format!(in alloc; "peer {number} ")?;
    line.push_str(mark)?;
    line.push_str(tail.as_str())?;
    Ok(line)
}

// The line of an entry.
fn line_of(alloc: Global, entry: &Entry) -> Result<String, AllocError>
    ensures { IfOk result (λ line. string_bytes line ≡ entry_line entry.now) }
{
    let digits = hex::encode(alloc, entry.mark)?;
    line_with(alloc, entry.number, digits.as_str(), entry.upto)
}

// Puts the line of an entry behind a text.
fn put_entry(alloc: Global, text: &mut String, entry: &Entry) -> Result<(), AllocError>
    ensures { IfOk result (λ _. string_bytes text.new ≡ string_bytes text.old ++ entry_line entry.now) }
{
    let line = line_of(alloc, entry)?;
    text.push_str(line.as_str())
}

// All lines but the last.
fn body(alloc: Global, own: u64, entries: &[Entry]) -> Result<String, AllocError>
    ensures { IfOk result (λ text. string_bytes text ≡ body_text (record { own = own; entries = entries.now })) }
{
    let mut text = format!(in alloc; "fbr-state 1\nown {own}\n")?;
    for entry in entries {
        put_entry(alloc, &mut text, entry)?;
    }
    Ok(text)
}

// The last line, with the digits of a tag.
fn end_with(alloc: Global, digits: &str) -> Result<String, AllocError>
    ensures { IfOk result (λ line. string_bytes line ≡ end_with digits.now) }
{
    format!(in alloc; "end {digits}\n")
}

// The last line of a text.
fn end_of(alloc: Global, text: &str) -> Result<String, AllocError>
    ensures { IfOk result (λ line. string_bytes line ≡ end_line text.now) }
{
    let digits = hex::encode(alloc, tag(&[0; 32], text.as_bytes()))?;
    end_with(alloc, digits.as_str())
}

/// The text of a state.
pub fn spell(alloc: Global, state: &State) -> Result<String, AllocError>
    ensures { IfOk result (λ text. string_bytes text ≡ state_text (state_of state.now)) }
{
    let mut text = body(alloc, state.own, state.entries.as_slice())?;
    let end = end_of(alloc, text.as_str())?;
    text.push_str(end.as_str())?;
    Ok(text)
}
