//! What people are told of a command that was refused, by the files that it read. It is tested, and no contract says it.

use fbr_files::{Fault, FileText, Held};
use fbr_tell::{Given, Held as Told, NamedFile, hint};
use std::alloc::Global;
use std::io::Write;

/// The files that a command read: an application, perhaps a certificate, and perhaps the rows RANGE that are kept; how often datagrams are delivered; and whether all
/// faults of the application's text are told.
#[derive(Clone, Copy)]
pub struct Files<'b, 'a> {
    pub app: &'b FileText<'a>,
    pub cert: Option<&'b FileText<'a>>,
    pub rows: Option<&'b FileText<'a>>,
    pub repeats: Option<u8>,
    pub is_all: bool,
}

impl<'b, 'a> Files<'b, 'a> {
    /// An application alone.
    pub fn one(app: &'b FileText<'a>) -> Files<'b, 'a> {
        Files {
            app,
            cert: None,
            rows: None,
            repeats: None,
            is_all: false,
        }
    }

    /// An application and a certificate.
    pub fn two(app: &'b FileText<'a>, cert: &'b FileText<'a>) -> Files<'b, 'a> {
        Files {
            app,
            cert: Some(cert),
            rows: None,
            repeats: None,
            is_all: false,
        }
    }

    /// The same, where all faults of the application's text are told if this is so.
    pub fn with_all(self, is_all: bool) -> Files<'b, 'a> {
        Files { is_all, ..self }
    }
}

/// A file as those who tell people take it.
pub fn named<'b>(file: &'b FileText<'b>) -> NamedFile<'b> {
    let held = match &file.held {
        Held::Text(text) => Told::Text(text.as_str()),
        Held::NoText(bytes) => Told::Bytes(bytes.as_slice()),
        Held::Unread => Told::Nothing,
        Held::Memory => Told::Memory,
    };
    NamedFile {
        name: file.name,
        held,
        meant: file.meant,
    }
}

/// The same, where there is one.
pub fn maybe_named<'b>(file: Option<&'b FileText<'b>>) -> Option<NamedFile<'b>> {
    match file {
        Some(file) => Some(named(file)),
        None => None,
    }
}

/// All files as those who tell people take them.
pub fn given_of<'b>(files: Files<'b, 'b>) -> Given<'b> {
    Given {
        app: named(files.app),
        cert: maybe_named(files.cert),
        rows: maybe_named(files.rows),
        repeats: files.repeats,
        is_all: files.is_all,
    }
}

/// Tells people of a fault.
pub fn tell<E: Write>(alloc: Global, fault: &Fault<'_>, files: Files<'_, '_>, errors: &mut E) {
    hint(alloc, fault, given_of(files), errors);
}
