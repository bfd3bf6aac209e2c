//! Texts of files, each of which is read once.

ghost use Rattle.std.specs.Prelude.{◌≡◌, ℕ, List, Option, Some, IfOk, IfSome, take, option_map, MatchResult, string_bytes};
ghost use Rattle.fbr_files.specs.Outcomes.{IsContents, IsReadFault};
ghost use Rattle.fbr_files.specs.Reading.{IsRead, held_by};

use crate::fault::Fault;
use crate::sources::{ReadFault, Sources};
use fbr_texts::Meant;
use std::alloc::Global;
use std::io::{ErrorKind, Read};

/// The most bytes of standard input, and of a file.
pub const LIMIT: usize = 33_554_432;

/// What came of reading a file.
#[derive(Drop)]
pub enum Held {
    /// Its text.
    Text(String),
    /// It is no UTF-8: its bytes.
    NoText(Vec<u8>),
    /// It was not read, or is too long.
    Unread,
    /// Memory ran out.
    Memory,
}

/// A file that was read, by its name; and the text that is meant by it, where that is another.
pub struct FileText<'a> {
    pub name: &'a str,
    pub held: Held,
    pub meant: Option<Meant<'a>>,
}

// Written out, so that each way out of a function that owns a file has one call, and not a case for each thing that it may hold.
impl Drop for FileText<'_> {
    fn drop(self) {
        let FileText {
            name: _,
            held: _,
            meant: _,
        } = self;
    }
}

/// Reads all there is, up to one byte more than the limit.
pub fn read_whole<R: Read>(alloc: Global, reader: &mut R) -> Result<Vec<u8>, ReadFault>
    ensures { IfOk result (λ v. IfSome (R.remaining reader.old) (λ xs. v.items ≡ take 33554433 xs)) }
{
    let mut bytes = Vec::new(alloc);
    match reader.take(LIMIT as u64 + 1).read_to_end(&mut bytes) {
        Ok(_) => Ok(bytes),
        Err(error) => {
            if error.kind() == ErrorKind::OutOfMemory {
                Err(ReadFault::Memory)
            } else {
                Err(ReadFault::Unreadable)
            }
        }
    }
}

// What a file of this name holds.
fn held_in<S: Sources>(alloc: Global, files: &S, name: &str) -> Held
    ensures { IsRead (S.contents files.now name.now) result }
{
    let bytes = match files.read(alloc, name) {
        Ok(bytes) => bytes,
        Err(ReadFault::Memory) => return Held::Memory,
        Err(ReadFault::Unreadable) => return Held::Unread,
    };
    if bytes.len() > LIMIT {
        return Held::Unread;
    }
    match String::from_utf8(bytes) {
        Ok(text) => Held::Text(text),
        Err(error) => Held::NoText(error.into_bytes()),
    }
}

/// Reads a file.
pub fn read_file<'a, S: Sources>(alloc: Global, files: &S, name: &'a str) -> FileText<'a>
    ensures named { result.name.now ≡ name.now }
    ensures held { IsRead (S.contents files.now name.now) result.held }
{
    FileText {
        name,
        held: held_in(alloc, files, name),
        meant: None,
    }
}

// What is held in place of a file.
fn held_as(alloc: Global, text: &str) -> Held
    ensures { IsRead (Some text.now) result }
{
    match String::from_str(alloc, text) {
        Ok(text) => Held::Text(text),
        Err(_) => Held::Memory,
    }
}

/// Reads the file of an application, or takes the text that is meant by it, where there is one.
pub fn read_app<'a, S: Sources>(
    alloc: Global,
    files: &S,
    name: &'a str,
    meant: Option<Meant<'a>>,
) -> FileText<'a>
    ensures named { result.name.now ≡ name.now }
    ensures held { IsRead (held_by (option_map (λ m. m.text.now) meant.entry) (S.contents files.now name.now)) result.held }
{
    match meant {
        Some(meant) => FileText {
            name,
            held: held_as(alloc, meant.text),
            meant: Some(meant),
        },
        None => read_file(alloc, files, name),
    }
}

impl<'a> FileText<'a> {
    /// Its text, or that there is none: 61 with its name, or 9.
    pub fn text(&self) -> Result<&str, Fault<'a>>
        ensures { (held : Option (List ℕ)) → IsRead held self.now.held → MatchResult result (λ text. IsContents held text.now) (IsReadFault self.now.name.now) }
    {
        match &self.held {
            Held::Text(text) => Ok(text.as_str()),
            Held::Memory => Err(Fault::Memory),
            Held::NoText(_) | Held::Unread => Err(Fault::File(self.name)),
        }
    }
}
