//! What words name, and what was read of it.

use fbr_files::Fault;
use fbr_places::{Named, Writing};
use fbr_texts::Meant;

/// What was read of a file.
#[derive(Clone, Copy)]
pub enum Held<'a> {
    /// The text that it holds.
    Text(&'a str),
    /// Bytes that are no text: they are no UTF-8, or too many.
    Bytes(&'a [u8]),
    /// Nothing: it could not be read, or was not.
    Nothing,
    /// Memory ran out.
    Memory,
}

/// A file that words name, and what was read of it; and the files that its text is together, where there are several.
#[derive(Clone, Copy)]
pub struct NamedFile<'a> {
    pub name: &'a str,
    pub held: Held<'a>,
    pub meant: Option<Meant<'a>>,
}

impl<'a> NamedFile<'a> {
    /// Its text, or why there is none.
    pub fn text(self) -> Result<Named<'a>, Fault<'a>> {
        match self.held {
            Held::Text(text) => Ok(Named {
                name: self.name,
                text,
                meant: self.meant,
            }),
            Held::Bytes(_) | Held::Nothing => Err(Fault::File(self.name)),
            Held::Memory => Err(Fault::Memory),
        }
    }

    /// Its text, where it has one.
    pub fn named(self) -> Option<Named<'a>> {
        match self.held {
            Held::Text(text) => Some(Named {
                name: self.name,
                text,
                meant: self.meant,
            }),
            _ => None,
        }
    }

    /// Writes the words of the files before it, each behind `--with`, where there are some.
    pub fn put_with(self, writing: &mut Writing) {
        let Some(meant) = self.meant else {
            return;
        };
        let (_, before) = match meant.parts.split_last() {
            Some(parts) => parts,
            None => return,
        };
        for part in before {
            writing.put(" --with ");
            writing.put(part.name);
        }
    }
}

/// What a command was given: an application, and the certificate that is named beside it; or the file whose rows RANGE a certificate keeps; how often datagrams are
/// delivered, where that is said; and whether all faults of the application's text are told.
#[derive(Clone, Copy)]
pub struct Given<'a> {
    pub app: NamedFile<'a>,
    pub cert: Option<NamedFile<'a>>,
    pub rows: Option<NamedFile<'a>>,
    pub repeats: Option<u8>,
    pub is_all: bool,
}

impl<'a> Given<'a> {
    /// An application alone.
    pub fn of(app: NamedFile<'a>) -> Given<'a> {
        Given {
            app,
            cert: None,
            rows: None,
            repeats: None,
            is_all: false,
        }
    }

    /// An application and a certificate.
    pub fn two(app: NamedFile<'a>, cert: NamedFile<'a>) -> Given<'a> {
        Given {
            app,
            cert: Some(cert),
            rows: None,
            repeats: None,
            is_all: false,
        }
    }

    /// The file of this name, of those that are given.
    pub fn file(self, name: &str) -> Option<NamedFile<'a>> {
        if self.app.name == name {
            return Some(self.app);
        }
        for file in [self.cert, self.rows] {
            if let Some(file) = file {
                if file.name == name {
                    return Some(file);
                }
            }
        }
        None
    }
}
