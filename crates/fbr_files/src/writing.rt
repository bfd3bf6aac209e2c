//! Files that are written.

ghost use Rattle.std.specs.Prelude.{◌≡◌, ◌≤◌, IfOk, MatchResult, option_map, true, false};
ghost use Rattle.fbr_files.specs.Outcomes.{IsContents, IsReadFault};
ghost use Rattle.fbr_files.specs.Writing.{AreApart, LeavesOthers, Meet, Writes};

use crate::fault::Fault;
use crate::outcome::print_outcome;
use crate::sources::Sources;
use std::io;
use std::io::{ErrorKind, Write};

/// Whether the file that is written, where one is, is another than a file that is read, where one is.
pub fn into_another<S: Sources>(files: &S, into: Option<&str>, read: Option<&str>) -> bool
    ensures apart { result ≡ true → AreApart (S.same files.now) (option_map (λ name. name.now) into.entry) (option_map (λ name. name.now) read.entry) }
    ensures meet { result ≡ false → Meet (S.same files.now) (option_map (λ name. name.now) into.entry) (option_map (λ name. name.now) read.entry) }
{
    match into {
        Some(into) => match read {
            Some(read) => !files.is_same(into, read),
            None => true,
        },
        None => true,
    }
}

// What a file of this name could not be written for: want of memory, or any other reason.
fn fault_of<'a>(error: &io::Error, name: &'a str) -> Fault<'a>
    ensures { IsReadFault name.now result }
{
    if error.kind() == ErrorKind::OutOfMemory {
        Fault::Memory
    } else {
        Fault::File(name)
    }
}

/// Puts a text into a file, in place of what it held; or says why not, and then it holds what it held. Other files stay as they are.
pub fn put_text<'a, S: Sources>(files: &mut S, name: &'a str, text: &[u8]) -> Result<(), Fault<'a>>
    ensures put { MatchResult result (λ _. IsContents (S.contents files.new name.now) text.now) (λ f. IsReadFault name.now f × (S.contents files.new name.now ≡ S.contents files.old name.now)) }
    ensures others { LeavesOthers (S.same files.old) name.now (S.contents files.old) (S.contents files.new) }
    ensures names { S.same files.new ≡ S.same files.old }
{
    match files.write(name, text) {
        Ok(()) => Ok(()),
        Err(error) => Err(fault_of(&error, name)),
    }
}

/// Writes a text into a file, and nothing else; or tells that it could not be written, and people too. Other files stay as they are.
pub fn write_into<'a, S: Sources, W: Write, E: Write>(
    files: &mut S,
    name: &'a str,
    text: &[u8],
    output: &mut W,
    errors: &mut E,
) -> io::Result<u8>
    ensures written { IfOk result (λ status. Writes name.now text.now (S.contents files.old name.now) (S.contents files.new name.now) (W.contents output.old) (W.contents output.new) status) }
    ensures others { LeavesOthers (S.same files.old) name.now (S.contents files.old) (S.contents files.new) }
    ensures names { S.same files.new ≡ S.same files.old }
    ensures status { IfOk result (λ status. status ≤ 4) }
{
    match put_text(files, name, text) {
        Ok(()) => Ok(0),
        Err(fault) => {
            let _ = writeln!(errors, "fbr: {name} could not be written");
            print_outcome(Err(fault), output)
        }
    }
}
