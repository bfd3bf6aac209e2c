//! What people are told on standard error where something is refused: one line. It is tested, and no contract says it. Where memory runs out it says
//! less, or is left out: standard output and the status are what counts.

use crate::all::{Listener, MORE, tell_all};
use crate::devices::put_devices;
use crate::given::{Given, NamedFile};
use crate::stray::{AS_UTF8, stray_in};
use fb_faults::{NoBound, Refusal};
use fbr_diagnosis::{
    Asked, Diagnosis, Reading, diagnose, diagnose_unbound, found_limit, meaning_of,
};
use fbr_explain::tell_lead;
use fbr_files::{Fault, Placed};
use fbr_leaves::system_again;
use fbr_places::{Named, Writing};
use fbr_texts::Meant;
use std::alloc::{AllocError, Global};
use std::io::Write;

/// Hands out what people are told, whole or not at all.
pub fn hand_out<E: Write>(writing: Writing, errors: &mut E) {
    if let Ok(told) = writing.end() {
        let _ = errors.write_all(&told);
    }
}

/// The file of the certificate that a fault is beside: of rows that are to be kept, where these are at fault.
pub fn certificate_of<'a>(fault: &Fault<'_>, given: Given<'a>) -> Option<NamedFile<'a>> {
    match (given.cert, fault) {
        (None, Fault::Refused(Refusal::Certificate(_))) => given.rows,
        (cert, _) => cert,
    }
}

// Writes which words say more of a fault.
fn write_more(fault: &Fault<'_>, given: Given<'_>, writing: &mut Writing) {
    match fault {
        Fault::Refused(_) | Fault::Unbound(_) => {
            writing.put(given.app.name);
            if let Some(cert) = certificate_of(fault, given) {
                writing.put(" ");
                writing.put(cert.name);
            }
            given.app.put_with(writing);
            if let Some(repeats) = given.repeats {
                writing.put(" --repeats ");
                writing.show(&repeats);
            }
            if given.is_all {
                writing.put(" --all");
            }
        }
        _ => writing.show(&fault.code()),
    }
}

// What there is to say of a fault by its number. The finder's 19 is of a resource, and not of a declaration.
fn said(fault: &Fault<'_>) -> &'static str {
    match (fault, meaning_of(fault.code())) {
        (Fault::Unbound(NoBound::Limit(_)), _) => found_limit().says,
        (_, Some(meaning)) => meaning.says,
        (_, None) => "",
    }
}

// Ends the line of a fault: which words say more.
fn write_end(fault: &Fault<'_>, given: Given<'_>, writing: &mut Writing) {
    writing.put("; 'fbr explain ");
    write_more(fault, given, writing);
    writing.put("' says more\n");
}

/// Writes the words of a fault, as they are printed.
pub(crate) fn put_fault(fault: &Fault<'_>, meant: Option<Meant<'_>>, writing: &mut Writing) {
    match meant {
        Some(meant) => writing.show(&Placed { fault, meant }),
        None => writing.show(fault),
    }
}

// Begins the line of a fault that stands at no place of a text: its outcome, and what is said of it.
fn write_start(fault: &Fault<'_>, said: &str, given: Given<'_>, writing: &mut Writing) {
    writing.put("fbr: ");
    put_fault(fault, given.app.meant, writing);
    writing.put(": ");
    writing.put(said);
}

// Writes the whole line, with which words say more.
fn write_line(fault: &Fault<'_>, said: &str, given: Given<'_>, writing: &mut Writing) {
    write_start(fault, said, given, writing);
    write_end(fault, given, writing);
}

// Writes the line of a fault at its place, where it has one, with what was found there; and whether it has.
fn write_place(
    diagnosis: &Diagnosis<'_>,
    fault: &Fault<'_>,
    given: Given<'_>,
    writing: &mut Writing,
) -> bool {
    let Some(place) = &diagnosis.place else {
        return false;
    };
    writing.put("fbr: ");
    place.put(writing);
    writing.put(": ");
    put_fault(fault, given.app.meant, writing);
    writing.put(": ");
    if !tell_lead(&diagnosis.finding, diagnosis.counts, writing) {
        writing.put(said(fault));
    }
    write_end(fault, given, writing);
    true
}

// The same of a refusal, by what was read of its texts.
fn write_diagnosis(
    asked: Asked<'_>,
    refusal: &Refusal,
    fault: &Fault<'_>,
    given: Given<'_>,
    writing: &mut Writing,
) -> bool {
    match Reading::of(asked.alloc, refusal, asked.app.text, asked.cert.text) {
        Ok(reading) => {
            let is_told = match diagnose(asked, refusal, &reading) {
                Ok(diagnosis) => write_place(&diagnosis, fault, given, writing),
                Err(_) => false,
            };
            reading.let_go();
            is_told
        }
        Err(_) => false,
    }
}

// Writes the line of a refusal of the checker: at its place, where both texts were read and it has one.
fn write_refused(
    alloc: Global,
    refusal: &Refusal,
    fault: &Fault<'_>,
    given: Given<'_>,
    writing: &mut Writing,
) {
    let cert = certificate_of(fault, given).unwrap_or(given.app);
    let is_told = match (given.app.named(), cert.named()) {
        (Some(app), Some(cert)) => {
            let asked = Asked {
                alloc,
                app,
                cert,
                is_searched: false,
            };
            write_diagnosis(asked, refusal, fault, given, writing)
        }
        _ => false,
    };
    if !is_told {
        write_line(fault, said(fault), given, writing);
    }
}

// Writes the line of a file that was not read.
fn write_unread(
    alloc: Global,
    name: &str,
    fault: &Fault<'_>,
    given: Given<'_>,
    writing: &mut Writing,
) {
    match stray_in(alloc, given.file(name)) {
        Some(stray) => {
            write_start(fault, stray.as_str(), given, writing);
            writing.put(": ");
            writing.put(AS_UTF8);
            write_end(fault, given, writing);
        }
        None => write_line(fault, said(fault), given, writing),
    }
}

// Writes the line of a script that could not be read on, by its number.
fn write_script(code: u8, writing: &mut Writing) {
    writing.put("fbr: standard input: refused ");
    writing.show(&code);
    writing.put(": ");
    if let Some(meaning) = meaning_of(code) {
        writing.put(meaning.says);
    }
    writing.put("; 'fbr explain ");
    writing.show(&code);
    writing.put("' says more\n");
}

// Writes what a 44 says where rows RANGE are kept.
fn write_kept(fault: &Fault<'_>, name: &str, writing: &mut Writing) {
    writing.put("fbr: ");
    writing.show(fault);
    writing.put(": with the rows RANGE of ");
    writing.put(name);
    writing.put(
        " this is not clear, or this row does not hold what its variable has at first or takes, or is of no variable\n",
    );
}

// Writes the line of why there is no certificate at its place, by what was read of the text again; and whether it has one.
fn write_reason(
    alloc: Global,
    reason: &NoBound,
    app: Named<'_>,
    fault: &Fault<'_>,
    given: Given<'_>,
    writing: &mut Writing,
) -> bool {
    let asked = Asked {
        alloc,
        app,
        cert: app,
        is_searched: false,
    };
    let Ok(Some(system)) = system_again(alloc, app.text) else {
        return false;
    };
    let reading = Reading::System(system, None);
    let is_told = match diagnose_unbound(asked, reason, &reading) {
        Ok(diagnosis) => write_place(&diagnosis, fault, given, writing),
        Err(_) => false,
    };
    reading.let_go();
    is_told
}

// Writes the line of why there is no certificate.
fn write_unbound(
    alloc: Global,
    reason: &NoBound,
    fault: &Fault<'_>,
    given: Given<'_>,
    writing: &mut Writing,
) {
    if let (NoBound::NoRange(_), Some(rows)) = (reason, given.rows) {
        write_kept(fault, rows.name, writing);
        return;
    }
    let is_told = match (reason, given.app.named()) {
        (NoBound::OutOfMemory, _) => false,
        (_, Some(app)) => write_reason(alloc, reason, app, fault, given, writing),
        (_, None) => false,
    };
    if !is_told {
        write_line(fault, said(fault), given, writing);
    }
}

// Writes the line of a device that the system has not: which it has.
fn write_device(alloc: Global, fault: &Fault<'_>, given: Given<'_>, writing: &mut Writing) {
    writing.put("fbr: ");
    writing.show(fault);
    writing.put(": ");
    match given.app.named() {
        Some(app) => put_devices(alloc, app.text, writing),
        None => writing.put(said(fault)),
    }
    write_end(fault, given, writing);
}

// Writes the line of a fault, if it is more than want of memory, and is not said by its number alone.
fn write_hint(alloc: Global, fault: &Fault<'_>, given: Given<'_>, writing: &mut Writing) {
    match fault {
        Fault::Refused(Refusal::OutOfMemory) => {}
        Fault::Refused(refusal) => write_refused(alloc, refusal, fault, given, writing),
        Fault::Unbound(reason) => write_unbound(alloc, reason, fault, given, writing),
        Fault::Device(_) => write_device(alloc, fault, given, writing),
        Fault::File(name) => write_unread(alloc, name, fault, given, writing),
        Fault::Input => write_script(fault.code(), writing),
        Fault::Line(_) | Fault::Memory | Fault::Usage | Fault::LinkDown | Fault::Socket(_) => {}
    }
}

// The lines of further faults, and what a command was given.
#[derive(Drop)]
struct Lines<'a> {
    given: Given<'a>,
    writing: Writing,
}

impl Listener for Lines<'_> {
    fn fault(
        &mut self,
        _asked: Asked<'_>,
        fault: &Fault<'_>,
        diagnosis: &Diagnosis<'_>,
    ) -> Result<(), AllocError> {
        if !write_place(diagnosis, fault, self.given, &mut self.writing) {
            write_line(fault, said(fault), self.given, &mut self.writing);
        }
        Ok(())
    }

    fn more(&mut self) {
        self.writing.put("fbr: ");
        self.writing.put(MORE);
    }
}

// Writes the lines of the further faults of an application's text.
fn with_further(alloc: Global, fault: &Fault<'_>, given: Given<'_>, writing: Writing) -> Writing {
    let mut lines = Lines { given, writing };
    // Where memory runs out, what was told is told.
    let _ = tell_all(alloc, fault, given.app, false, &mut lines);
    let Lines { given: _, writing } = lines;
    writing
}

/// Tells people why a command was refused, in one line: of the two texts and their files, or of a script that could not be read on; and where it is asked for, all
/// further faults of the application's text in a line each. Nothing is told of want of memory, nor of words and links, nor of a line of a script: who reads it tells
/// why it is bad.
pub fn hint<E: Write>(alloc: Global, fault: &Fault<'_>, given: Given<'_>, errors: &mut E) {
    let mut writing = Writing::new(alloc);
    write_hint(alloc, fault, given, &mut writing);
    if given.is_all {
        writing = with_further(alloc, fault, given, writing);
    }
    hand_out(writing, errors);
}
