//! The files of the system.

ghost use Rattle.std.specs.Prelude.{None};

use crate::reading::read_whole;
use crate::sources::{Keep, ReadFault, Sources};
use crate::stream::Stream;
use std::alloc::{AllocError, Global};
use std::fs::{Metadata, OpenFile, OpenOptions, Permissions};
use std::io::{BufReader, ErrorKind, Write};
use std::os::unix::fs::MetadataExt;
use std::rt::Files;
use std::{fs, io};

/// The files of the system, and what standard input holds in place of the one named `-`, which is never read.
#[derive(Drop)]
pub struct Disk<'a, R: Files> {
    pub rt: &'a R,
    pub alloc: Global,
    pub input: Result<Vec<u8>, ReadFault>,
}

/// How many bytes of a file are read ahead.
const AHEAD: usize = 8192;

// The most names that are tried for a new file.
const TRIES: u32 = 100;

// The bytes once more.
fn again(bytes: &Result<Vec<u8>, ReadFault>) -> Result<Vec<u8>, ReadFault> {
    match bytes {
        Ok(bytes) => bytes.clone().map_err(|_| ReadFault::Memory),
        Err(fault) => Err(*fault),
    }
}

// Whether what stands at two names is one file.
fn is_one(one: &Metadata, other: &Metadata) -> bool {
    one.dev() == other.dev() && one.ino() == other.ino()
}

// A new file beside the one of this name, and its own name.
fn open_beside<R: Files>(files: &R, alloc: Global, name: &str) -> io::Result<(R::File, String)> {
    for tries in 0..TRIES {
        let beside = format!(in alloc; "{name}.fbr-{tries}")?;
        match fs::File::create_new(files, beside.as_str()) {
            Ok(file) => return Ok((file, beside)),
            Err(error) if error.kind() == ErrorKind::AlreadyExists => {}
            Err(error) => return Err(error),
        }
    }
    Err(io::Error::from(ErrorKind::AlreadyExists))
}

// Writes a text into a new file, as far as the disk.
fn fill<F: OpenFile + Write>(
    file: &mut F,
    mode: Option<Permissions>,
    text: &[u8],
) -> io::Result<()> {
    if let Some(mode) = mode {
        file.set_permissions(mode)?;
    }
    file.write_all(text)?;
    file.sync_all()
}

// Has the folder of a file on the disk, so that a name that was changed there is not changed back by a cut. Not every file system can.
fn settle<R: Files>(files: &R, name: &str) {
    let folder = match name.rsplit_once('/') {
        Some(("", _)) => "/",
        Some((folder, _)) => folder,
        None => ".",
    };
    if let Ok(mut folder) = fs::open(files, folder) {
        let _ = folder.sync_all();
    }
}

// Puts a text at a name by a new file beside it, which is renamed at the end: a cut in between leaves what stood there whole.
fn replace<R: Files>(
    files: &R,
    alloc: Global,
    name: &str,
    mode: Option<Permissions>,
    text: &[u8],
) -> io::Result<()> {
    let (mut file, beside) = open_beside(files, alloc, name)?;
    let done = match fill(&mut file, mode, text) {
        Ok(()) => fs::rename(files, beside.as_str(), name),
        Err(error) => Err(error),
    };
    match done {
        Ok(()) => settle(files, name),
        Err(_) => {
            let _ = fs::remove_file(files, beside.as_str());
        }
    }
    done
}

// Replaces a file that is there, where it may be written: the one that links lead to, and its mode is kept.
fn replace_old<R: Files>(
    files: &R,
    alloc: Global,
    name: &str,
    old: &Metadata,
    text: &[u8],
) -> io::Result<()> {
    let _ = OpenOptions::new().write(true).open(files, name)?;
    let target = files.canonicalize(alloc, name)?;
    match target.as_path().to_str() {
        Some(target) => replace(files, alloc, target, Some(old.permissions()), text),
        None => Err(io::Error::from(ErrorKind::InvalidFilename)),
    }
}

// Puts a text at a name, in place of what stands there.
fn write_whole<R: Files>(files: &R, alloc: Global, name: &str, text: &[u8]) -> io::Result<()> {
    match fs::metadata(files, name) {
        Ok(old) if old.is_file() => replace_old(files, alloc, name, &old, text),
        Err(error)
            if error.kind() == ErrorKind::NotFound && fs::symlink_metadata(files, name).is_err() =>
            { replace(files, alloc, name, None, text) }
        // A terminal, a pipe or a device is written as it is, and what a link without a file leads to is made.
        _ => fs::write(files, name, text),
    }
}

/// A file of the system whose text is replaced again and again.
#[derive(Drop)]
pub struct Kept<'a, R: Files> {
    rt: &'a R,
    alloc: Global,
    name: String,
}

impl<R: Files> Keep for Kept<'_, R> {
    ghost held = { λ _. None };

    fn put(&mut self, text: &[u8]) -> bool {
        write_whole(self.rt, self.alloc, self.name.as_str(), text).is_ok()
    }
}

impl<'a, R: Files> Sources for Disk<'a, R> {
    ghost contents = { λ _ _. None };

    ghost same = { λ _ _ _. None };

    type Reader = BufReader<R::File>;

    type Writer = Stream<R::File>;

    type Keeper = Kept<'a, R>;

    fn read(&self, alloc: Global, name: &str) -> Result<Vec<u8>, ReadFault> {
        if name == "-" {
            return again(&self.input);
        }
        match fs::open(self.rt, name) {
            Ok(mut file) => read_whole(alloc, &mut file),
            Err(_) => Err(ReadFault::Unreadable),
        }
    }

    fn is_same(&self, one: &str, other: &str) -> bool {
        if one == other {
            return true;
        }
        match (fs::metadata(self.rt, one), fs::metadata(self.rt, other)) {
            (Ok(one), Ok(other)) => is_one(&one, &other),
            _ => false,
        }
    }

    fn write(&mut self, name: &str, text: &[u8]) -> io::Result<()> {
        write_whole(self.rt, self.alloc, name, text)
    }

    fn is_private(&self, name: &str) -> bool {
        match fs::metadata(self.rt, name) {
            Ok(known) => known.mode() & 0o077 == 0,
            Err(_) => false,
        }
    }

    fn keeper(&self, alloc: Global, name: &str) -> Result<Kept<'a, R>, AllocError> {
        let mut own = String::new(alloc);
        own.push_str(name)?;
        Ok(Kept {
            rt: self.rt,
            alloc,
            name: own,
        })
    }

    fn open(&self, name: &str) -> io::Result<BufReader<R::File>> {
        let file = fs::open(self.rt, name)?;
        BufReader::with_capacity(self.alloc, AHEAD, file)
    }

    fn create(&mut self, name: Option<&str>, is_synced: bool) -> io::Result<Stream<R::File>> {
        match name {
            Some(name) => {
                let file = fs::File::create_new(self.rt, name)?;
                Ok(Stream {
                    file: Some(file),
                    is_synced,
                })
            }
            None => Ok(Stream {
                file: None,
                is_synced,
            }),
        }
    }
}
