//! What the program prints.

use fbr::{command, input_named};
use fbr_cases_language::{Case, ended};
use fbr_files::{Keep, ReadFault, Sources};
use fbr_tell::paint;
use std::alloc::{AllocError, Global};
use std::io;
use std::net::Net;
use std::random::RandomSource;
use std::rt::Clock;

// The bytes of a text. The character that a section `byte 255` holds stands for that byte.
fn bytes(alloc: Global, case: &Case<'_>, text: &str) -> Result<Vec<u8>, AllocError> {
    let mark = case.text("byte 255").as_bytes();
    let mut bytes = Vec::new(alloc);
    for byte in text.as_bytes() {
        if mark.first() == Some(byte) {
            bytes.push(255)?;
        } else {
            bytes.push(*byte)?;
        }
    }
    Ok(bytes)
}

// The files of a case: a section `file NAME` each, and what standard input holds where words name it; and what is written. Those in the folder `locked` are not.
#[derive(Drop)]
struct Held<'c, 'a> {
    alloc: Global,
    case: &'c Case<'a>,
    input: Result<Vec<u8>, ReadFault>,
    written: Vec<u8>,
}

// A name without the folder that it begins in.
fn plain(name: &str) -> &str {
    name.strip_prefix("./").unwrap_or(name)
}

// A file in which a text is kept while a device runs, which a case does not show.
#[derive(Clone, Copy)]
struct Unshown;

impl Keep for Unshown {
    ghost use Rattle.std.specs.Prelude.{None};

    ghost held = { λ _. None };

    fn put(&mut self, _text: &[u8]) -> bool {
        true
    }
}

impl Sources for Held<'_, '_> {
    ghost use Rattle.std.specs.Prelude.{None};

    ghost contents = { λ _ _. None };

    ghost same = { λ _ _ _. None };

    type Reader = io::Cursor<Vec<u8>>;

    type Writer = Vec<u8>;

    type Keeper = Unshown;

    fn read(&self, alloc: Global, name: &str) -> Result<Vec<u8>, ReadFault> {
        if name == "-" {
            return match &self.input {
                Ok(bytes) => bytes.clone().map_err(|_| ReadFault::Memory),
                Err(fault) => Err(*fault),
            };
        }
        for section in self.case.sections.iter().rev() {
            if section.name.strip_prefix("file ") == Some(name) {
                return bytes(alloc, self.case, section.text).map_err(|_| ReadFault::Memory);
            }
        }
        Err(ReadFault::Unreadable)
    }

    // A name is that of the same file with `./` before it.
    fn is_same(&self, one: &str, other: &str) -> bool {
        one == other || plain(one) == plain(other)
    }

    fn write(&mut self, name: &str, text: &[u8]) -> io::Result<()> {
        if name.starts_with("locked/") {
            return Err(io::Error::from(io::ErrorKind::PermissionDenied));
        }
        let line = format!(in self.alloc; "in the file {name}:\n")?;
        self.written.extend_from_slice(line.as_bytes())?;
        self.written.extend_from_slice(text)?;
        Ok(())
    }

    // All may read what stands in the folder `open`.
    fn is_private(&self, name: &str) -> bool {
        !name.starts_with("open/") && self.read(self.alloc, name).is_ok()
    }

    fn keeper(&self, _alloc: Global, _name: &str) -> Result<Unshown, AllocError> {
        Ok(Unshown)
    }

    fn open(&self, name: &str) -> io::Result<io::Cursor<Vec<u8>>> {
        match self.read(self.alloc, name) {
            Ok(bytes) => Ok(io::Cursor::new(bytes)),
            Err(ReadFault::Memory) => Err(io::Error::from(io::ErrorKind::OutOfMemory)),
            Err(ReadFault::Unreadable) => Err(io::Error::from(io::ErrorKind::NotFound)),
        }
    }

    // What is written bit by bit is not shown.
    fn create(&mut self, name: Option<&str>, _is_synced: bool) -> io::Result<Vec<u8>> {
        if let Some(name) = name {
            if self.read(self.alloc, name).is_ok() || name.starts_with("locked/") {
                return Err(io::Error::from(io::ErrorKind::AlreadyExists));
            }
        }
        Ok(Vec::new(self.alloc))
    }
}

// An output that takes so many bytes more, and then fails.
#[derive(Drop)]
struct Output {
    bytes: Vec<u8>,
    room: usize,
}

impl io::Write for Output {
    fn write(&mut self, buf: &[u8]) -> io::Result<usize> {
        if self.room == 0 {
            return Err(io::Error::from(io::ErrorKind::BrokenPipe));
        }
        let n = buf.len().min(self.room);
        self.bytes.extend_from_slice(&buf[..n])?;
        self.room -= n;
        Ok(n)
    }

    fn flush(&mut self) -> io::Result<()> {
        Ok(())
    }
}

// What people see of bytes, in colour where a section `terminal` is there.
fn shown(alloc: Global, case: &Case<'_>, told: &[u8]) -> Result<String, AllocError> {
    if case.text("terminal").is_empty() {
        return String::from_utf8_lossy(alloc, told);
    }
    let mut painted = Vec::new(alloc);
    let _ = paint(told, &mut painted);
    String::from_utf8_lossy(alloc, painted.as_slice())
}

/// The status of a command and what it prints, the files that it writes behind what it prints on standard output, and standard error behind that: its words stand in the section `words`, its standard input in `input`, its files in
/// a section `file NAME` each, and in `room`, where it is given, how many bytes its output takes before it fails.
pub fn commands<R: AllocGlobal + Clock + Net + RandomSource>(
    rt: &R,
    case: &Case<'_>,
) -> Result<String, AllocError> {
    let alloc = rt.alloc();
    let mut words = Vec::new(alloc);
    words.push("fbr")?;
    for word in case.text("words").split_whitespace() {
        words.push(word)?;
    }
    let mut output = Output {
        bytes: Vec::new(alloc),
        room: case.text("room").parse::<usize>().unwrap_or(usize::MAX),
    };
    let input = bytes(alloc, case, case.text("input"))?;
    let mut input = input.as_slice();
    let mut files = Held {
        alloc,
        case,
        input: input_named(alloc, words.as_slice(), &mut input),
        written: Vec::new(alloc),
    };
    let mut errors: Vec<u8> = Vec::new(alloc);
    let status = command(
        rt,
        words.as_slice(),
        &mut files,
        &mut input,
        &mut output,
        &mut errors,
    );
    let text = shown(alloc, case, output.bytes.as_slice())?;
    let written = String::from_utf8_lossy(alloc, files.written.as_slice())?;
    let told = shown(alloc, case, errors.as_slice())?;
    let mark = if told.is_empty() {
        ""
    } else {
        "on standard error:\n"
    };
    Ok(ended(format!(in alloc; "status {status}\n{text}{written}{mark}{told}")?))
}
