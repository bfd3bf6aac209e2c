//! Where the files of a command come from.

ghost use Rattle.std.specs.Prelude.{◌≡◌, IfErr, IfOk, IfSome, take, option_map, Bool, Option, Some, false, true, List, ℕ};
ghost use Rattle.fbr_files.specs.Outcomes.{IsContents};
ghost use Rattle.fbr_files.specs.Writing.{LeavesAllBut};

use std::alloc::{AllocError, Global};
use std::io;
use std::io::{Read, Write};

/// Why a file was not read.
#[derive(Clone, Copy)]
pub enum ReadFault {
    Memory,
    Unreadable,
}

impl ReadFault {
    ghost use Rattle.fbr_files.specs.Codes.{code_of};

    /// The number of the refusal.
    pub fn code(&self) -> u8
        ensures { result ≡ code_of self.now }
    {
        match self {
            ReadFault::Memory => 9,
            ReadFault::Unreadable => 61,
        }
    }
}

/// A file whose text is replaced, again and again.
pub trait Keep {
    /// What the file holds, where that is known.
    ghost held: { Self → Option (List ℕ) };

    /// Puts a text into the file, in place of what it held, and has it on the disk; or answers that this failed, and then it holds what it held.
    fn put(&mut self, text: &[u8]) -> bool
        ensures put { result ≡ true → IsContents (held self.new) text.now }
        ensures kept { result ≡ false → held self.new ≡ held self.old };
}

/// Files, by name: those that are read, and those that are written.
pub trait Sources {
    /// A file that is read bit by bit.
    type Reader: Read + Drop;

    /// A file that is written bit by bit.
    type Writer: Write + Drop;

    /// A file whose text is replaced again and again.
    type Keeper: Keep + Drop;

    /// What a file of this name holds, where that is known.
    ghost contents: { Self → List ℕ → Option (List ℕ) };

    /// Whether two names are of one file, where that is known.
    ghost same: { Self → List ℕ → List ℕ → Option Bool };

    /// All bytes of a file, or one byte more than the limit of the longest ones.
    fn read(&self, alloc: Global, name: &str) -> Result<Vec<u8>, ReadFault>
        ensures { IfOk result (λ bytes. IfSome (contents self.now name.now) (λ held. bytes.items ≡ take 33554433 held)) };

    /// Whether two names are of one file.
    fn is_same(&self, one: &str, other: &str) -> bool
        ensures known { IfSome (same self.now one.now other.now) (λ is. result ≡ is) }
        ensures spelled { one.now ≡ other.now → result ≡ true };

    /// Puts a text into a file, in place of what it held. Where that fails the file keeps what it held, and other files do in any case.
    fn write(&mut self, name: &str, text: &[u8]) -> io::Result<()>
        ensures written { IfOk result (λ _. IsContents (contents self.new name.now) text.now) }
        ensures kept { IfErr result (λ _. contents self.new name.now ≡ contents self.old name.now) }
        ensures others { (other : List ℕ) → same self.old name.now other ≡ Some false → contents self.new other ≡ contents self.old other }
        ensures names { same self.new ≡ same self.old };

    /// Whether nobody but its owner may read or write a file. One that cannot be looked at is not.
    fn is_private(&self, name: &str) -> bool;

    /// The file of this name, whose text is replaced from now on; of what that does nothing is said here.
    fn keeper(&self, alloc: Global, name: &str) -> Result<Self::Keeper, AllocError>;

    /// Opens a file that is read bit by bit.
    fn open(&self, name: &str) -> io::Result<Self::Reader>;

    /// Makes a new file that is written bit by bit, or fails where one of this name is there already. Where it is to be synced, each flush has on the disk what was
    /// written. Without a name, what is written goes nowhere. Other files hold what they held.
    fn create(&mut self, name: Option<&str>, is_synced: bool) -> io::Result<Self::Writer>
        ensures others { LeavesAllBut (same self.old) (option_map (λ name. name.now) name.entry) (contents self.old) (contents self.new) }
        ensures names { same self.new ≡ same self.old };
}
