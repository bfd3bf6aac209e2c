//! Block types alone: the system around each, checked with the certificate that is found for it.

use fb_device::{release, share};
use fb_verified::Verified;
use fbr_alone::{Alone, BEFORE_PATHS, Found, Subject, alone_in};
use fbr_check::texts_verified;
use fbr_files::{FileText, Held};
use fbr_find::{RangesFrom, Wanted};
use fbr_names::{Fault, Names};
use fbr_places::Writing;
use fbr_story::unknown_block;
use std::alloc::{AllocError, Global};
use std::rc::Rc;

// How many arrivals of each kind the queue has room for.
const ROOM: u8 = 4;

/// Block types, each with what was verified of the system around it.
#[derive(Drop)]
pub(crate) struct Blocks {
    alones: Vec<Alone>,
    verified: Vec<Rc<Verified>>,
}

// The certificate of the system around a block type.
fn certificate_of<'a>(alloc: Global, around: &Alone) -> Result<String, fbr_files::Fault<'a>> {
    let app = FileText {
        name: "",
        held: Held::Text(String::from_str(alloc, around.text.as_str())?),
        meant: None,
    };
    let wanted = Wanted {
        app,
        ranges: RangesFrom::Searched,
        repeats: None,
        room: Some(ROOM),
    };
    wanted.text(alloc)
}

// What is verified of it.
fn verified_of<'a>(alloc: Global, around: &Alone) -> Result<Verified, fbr_files::Fault<'a>> {
    match certificate_of(alloc, around) {
        Ok(certificate) => { texts_verified(alloc, around.text.as_str(), certificate.as_str()) }
        Err(fault) => Err(fault),
    }
}

// Writes a line without the names of the device and the resource before its paths.
fn put_line(line: &str, writing: &mut Writing) {
    for part in line.split(BEFORE_PATHS) {
        writing.put(part);
    }
}

// That there is no certificate of a block type alone.
fn unbound(alloc: Global, at: usize, around: &Alone, fault: &fbr_files::Fault<'_>) -> Fault {
    if let fbr_files::Fault::Memory = fault {
        return Fault::Memory;
    }
    let mut line = Writing::new(alloc);
    line.show(fault);
    let Ok(line) = line.end() else {
        return Fault::Memory;
    };
    let mut writing = Writing::new(alloc);
    writing.put(around.name.as_str());
    writing.put(" alone has no certificate; `fbr bound` of it says: ");
    put_line(str::from_utf8(&line).unwrap_or(""), &mut writing);
    Fault::written(at, writing)
}

// That a block type has a service within it that meets the outside.
fn meeting(alloc: Global, at: usize, around: &Alone, path: &str) -> Fault {
    let mut writing = Writing::new(alloc);
    writing.put(around.name.as_str());
    writing.put(" has ");
    put_line(path, &mut writing);
    writing.put(
        " within it, and a type with an INPUT, OUTPUT, PUBLISH or SUBSCRIBE is not played alone",
    );
    Fault::written(at, writing)
}

// The path of a service within a block type that meets the outside.
fn path_meeting(
    alloc: Global,
    verified: &Verified,
    around: &Alone,
) -> Result<Option<String>, AllocError> {
    let names = Names::of(alloc, verified.flat(), Some(around))?;
    match names.meeting() {
        Some(place) => Ok(Some(place.leaf.path.clone()?)),
        None => Ok(None),
    }
}

// A share of what is verified of a block type that meets the outside by its events alone.
fn share_of(alloc: Global, at: usize, around: &Alone) -> Result<Rc<Verified>, Fault> {
    let verified = match verified_of(alloc, around) {
        Ok(verified) => verified,
        Err(fault) => return Err(unbound(alloc, at, around, &fault)),
    };
    let found = path_meeting(alloc, &verified, around);
    match found {
        Ok(None) => match share(alloc, verified) {
            Ok(shared) => Ok(shared),
            Err(_) => Err(Fault::Memory),
        },
        Ok(Some(path)) => {
            verified.let_go();
            Err(meeting(alloc, at, around, path.as_str()))
        }
        Err(_) => {
            verified.let_go();
            Err(Fault::Memory)
        }
    }
}

impl Blocks {
    // Adds a block type of an application.
    fn add(&mut self, alloc: Global, app: &str, subject: Subject<'_>) -> Result<(), Fault> {
        match alone_in(alloc, app, subject.name)? {
            Found::Block(around) => {
                let shared = share_of(alloc, subject.at, &around)?;
                if let Err(refused) = self.verified.push(shared) {
                    release(refused.value);
                    return Err(Fault::Memory);
                }
                self.alones.push(around)?;
                Ok(())
            }
            Found::Unknown(names) => Err(unknown_block(alloc, subject, &names)),
        }
    }

    // Adds all of these, up to one that is at fault.
    fn add_all(&mut self, alloc: Global, app: &str, subjects: &[Subject<'_>]) -> Result<(), Fault> {
        for subject in subjects {
            self.add(alloc, app, *subject)?;
        }
        Ok(())
    }

    /// These block types of an application.
    pub(crate) fn of(alloc: Global, app: &str, subjects: &[Subject<'_>]) -> Result<Blocks, Fault> {
        let mut blocks = Blocks {
            alones: Vec::new(alloc),
            verified: Vec::new(alloc),
        };
        match blocks.add_all(alloc, app, subjects) {
            Ok(()) => Ok(blocks),
            Err(fault) => {
                blocks.let_go();
                Err(fault)
            }
        }
    }

    /// Gives all shares back.
    pub(crate) fn let_go(self) {
        let mut blocks = self;
        for _ in 0..blocks.verified.len() {
            match blocks.verified.pop() {
                Some(shared) => release(shared),
                None => break,
            }
        }
    }

    /// What was verified of the block type of a scope: they are counted from 1, and 0 is the system.
    pub(crate) fn get(&self, scope: usize) -> Option<&Rc<Verified>> {
        self.verified.get(scope.checked_sub(1)?)
    }

    /// The names of the system, and then those of each block type.
    pub(crate) fn names<'s>(
        &'s self,
        alloc: Global,
        system: &'s Verified,
    ) -> Result<Vec<Names<'s>>, AllocError> {
        let mut all = Vec::new(alloc);
        all.push(Names::of(alloc, system.flat(), None)?)?;
        for (around, verified) in self.alones.iter().zip(&self.verified) {
            all.push(Names::of(alloc, verified.flat(), Some(around))?)?;
        }
        Ok(all)
    }
}
