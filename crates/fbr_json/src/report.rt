//! Reports of verdicts: one object each.

use crate::bounds::put_bounds;
use crate::finding::finding_object;
use crate::notes::{put_notes, put_warnings};
use crate::places::put_place;
use fb_verified::Verified;
use fbr_diagnosis::{Asked, Diagnosis, Meaning, meaning_of};
use fbr_explain::{narrower_said, tell_found};
use fbr_files::{Fault, Placed};
use fbr_objects::{List, Object};
use fbr_places::{Named, Writing};
use fbr_tell::{Listener, NamedFile, Teller, tell_all};
use fbr_texts::Meant;
use std::alloc::{AllocError, Global};

/// The version of the schema that reports have.
pub const SCHEMA: u64 = 1;

/// A report that is put together.
#[derive(Drop)]
pub struct Report {
    alloc: Global,
    object: Object,
}

// What to do: a remedy, and what more there is to do, each in a sentence.
fn put_remedies(alloc: Global, remedy: &str, more: &str, object: &mut Object) {
    let mut list = List::new(alloc);
    if !remedy.is_empty() {
        list.text(remedy);
    }
    if !more.is_empty() {
        list.text(more);
    }
    object.list("remedies", list);
}

// What a number says, and what to do.
fn put_meaning(alloc: Global, meaning: Option<Meaning>, object: &mut Object) {
    let mut remedy = "";
    if let Some(meaning) = meaning {
        object.text("says", meaning.says);
        remedy = meaning.remedy;
    }
    put_remedies(alloc, remedy, "", object);
}

// How many rows are missing and how many are too many.
fn put_counts(alloc: Global, diagnosis: &Diagnosis<'_>, object: &mut Object) {
    if let Some(counts) = diagnosis.counts {
        let mut rows = Object::new(alloc);
        rows.count("missing", counts.missing);
        rows.count("too_many", counts.many);
        object.object("rows", rows);
    }
}

// What stands behind the number in the line of a refusal.
fn subject_of(line: &str) -> Option<&str> {
    let (_, subject) = line.strip_prefix("refused ")?.split_once(' ')?;
    Some(subject)
}

// The line that `check` and `bound` print of a fault, its number, and what stands behind that.
fn put_line(
    alloc: Global,
    fault: &Fault<'_>,
    meant: Option<Meant<'_>>,
    object: &mut Object,
) -> Result<(), AllocError> {
    let mut written = Writing::new(alloc);
    match meant {
        Some(meant) => written.show(&Placed { fault, meant }),
        None => written.show(fault),
    }
    let line = written.text()?;
    object.text("line", line.as_str());
    object.number("number", u64::from(fault.code()));
    if let Some(subject) = subject_of(line.as_str()) {
        object.text("subject", subject);
    }
    Ok(())
}

// Where a refusal stands, what was found there, and what to do.
fn put_diagnosis(asked: Asked<'_>, diagnosis: &Diagnosis<'_>, object: &mut Object) {
    let alloc = asked.alloc;
    put_place(alloc, diagnosis.place.as_ref(), object);
    let mut found = Writing::new(alloc);
    if tell_found(&diagnosis.finding, diagnosis.counts, &mut found) {
        object.written("found", found);
    }
    if let Some(finding) = finding_object(asked, diagnosis) {
        object.object("finding", finding);
    }
    put_counts(alloc, diagnosis, object);
    let more = narrower_said(diagnosis.is_narrower);
    if let Some(meaning) = diagnosis.meaning {
        object.text("says", meaning.says);
    }
    put_remedies(alloc, diagnosis.remedy(), more, object);
}

// All faults of a text, and whether there are more than these.
#[derive(Drop)]
struct Faults {
    list: List,
    count: usize,
    has_more: bool,
}

impl Listener for Faults {
    fn fault(
        &mut self,
        asked: Asked<'_>,
        fault: &Fault<'_>,
        diagnosis: &Diagnosis<'_>,
    ) -> Result<(), AllocError> {
        let mut object = Object::new(asked.alloc);
        put_line(asked.alloc, fault, asked.app.meant, &mut object)?;
        put_diagnosis(asked, diagnosis, &mut object);
        self.list.object(object);
        self.count = self.count.saturating_add(1);
        Ok(())
    }

    fn more(&mut self) {
        self.has_more = true;
    }
}

impl Report {
    /// Nothing so far.
    pub fn new(alloc: Global) -> Report {
        Report {
            alloc,
            object: Object::new(alloc),
        }
    }

    /// Adds the text of a certificate that was found.
    pub fn certificate(&mut self, text: &str) {
        self.object.text("certificate", text);
    }

    // Its text, with how it begins.
    fn end(self, command: &str, verdict: &str, status: u8) -> Result<String, AllocError> {
        let Report { alloc: _, object } = self;
        let mut object = object;
        object.number("schema", SCHEMA);
        object.text("command", command);
        object.text("verdict", verdict);
        object.number("status", u64::from(status));
        object.end()
    }

    /// Adds all faults of an application's text, if this one that is told is one of them.
    pub fn faults(&mut self, fault: &Fault<'_>, app: NamedFile<'_>) -> Result<(), AllocError> {
        let mut faults = Faults {
            list: List::new(self.alloc),
            count: 0,
            has_more: false,
        };
        tell_all(self.alloc, fault, app, true, &mut faults)?;
        let Faults {
            list,
            count,
            has_more,
        } = faults;
        if count > 0 {
            self.object.list("faults", list);
        }
        if has_more {
            self.object.flag("more_faults", true);
        }
        Ok(())
    }

    /// The report of a verdict, with the status that the program ends with, over a text that is of several files, where there is one.
    pub fn end_verdict(
        self,
        command: &str,
        verdict: &Result<(), Fault<'_>>,
        meant: Option<Meant<'_>>,
        status: u8,
    ) -> Result<String, AllocError> {
        let mut report = self;
        match verdict {
            Ok(()) => report.end(command, "accepted", status),
            Err(fault) => {
                put_line(report.alloc, fault, meant, &mut report.object)?;
                report.end(command, "refused", status)
            }
        }
    }

    /// Adds what a run did in all, by its name.
    pub fn sum(&mut self, name: &str, sum: u64) {
        self.object.number(name, sum);
    }

    /// The report of a run that came to its end.
    pub fn end_run(self, command: &str) -> Result<String, AllocError> {
        self.end(command, "done", 0)
    }

    /// Adds how many sequences of stories passed and failed.
    pub fn counts(&mut self, passed: u64, failed: u64) {
        self.object.number("passed", passed);
        self.object.number("failed", failed);
    }

    /// The report of stories that were played to their end.
    pub fn end_stories(self, is_passed: bool, status: u8) -> Result<String, AllocError> {
        let verdict = if is_passed { "passed" } else { "failed" };
        self.end("play", verdict, status)
    }

    /// Adds what a number says and what to do.
    pub fn number(&mut self, code: u8) {
        put_meaning(self.alloc, meaning_of(code), &mut self.object);
    }
}

/// The report of what a number says; nothing where no refusal and no denial has it.
pub fn number_text(alloc: Global, number: u16) -> Result<Option<String>, AllocError> {
    match u8::try_from(number).ok().and_then(meaning_of) {
        Some(meaning) => {
            let mut report = Report::new(alloc);
            report.object.number("number", u64::from(number));
            report.meaning(meaning);
            Ok(Some(report.end("explain", "none", 0)?))
        }
        None => Ok(None),
    }
}

impl Teller for Report {
    fn bounds(
        &mut self,
        alloc: Global,
        verified: &Verified,
        app: Named<'_>,
        allowed: &str,
    ) -> Result<bool, AllocError> {
        put_bounds(alloc, verified, &mut self.object)?;
        put_warnings(alloc, verified, &mut self.object)?;
        put_notes(alloc, verified, app, allowed, &mut self.object)
    }

    fn diagnosis(&mut self, asked: Asked<'_>, diagnosis: &Diagnosis<'_>) -> Result<(), AllocError> {
        put_diagnosis(asked, diagnosis, &mut self.object);
        Ok(())
    }

    fn stray(&mut self, said: &str) {
        self.object.text("found", said);
    }

    fn meaning(&mut self, meaning: Meaning) {
        put_meaning(self.alloc, Some(meaning), &mut self.object);
    }
}

/// The parts of the report that memory ran out, which takes no memory: the command stands between them.
pub fn memory_parts() -> [&'static str; 2] {
    [
        "{\"command\":\"",
        "\",\"line\":\"refused 9\",\"number\":9,\"remedies\":[\"give the process more memory\"],\"says\":\"memory ran out\",\"schema\":1,\"status\":4,\"verdict\":\"refused\"}\n",
    ]
}
