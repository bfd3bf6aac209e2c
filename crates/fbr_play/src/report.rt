//! Reports of stories as JUnit XML, which test servers read.

use fbr_course::{Case, Failure};
use fbr_places::Writing;
use fbr_score::Score;
use fbr_timeline::{put_attribute, put_escaped};
use std::alloc::{AllocError, Global};

/// A report: what is written of the stories so far, and of the sequences of the one that is played. Nothing is written where none is asked for.
#[derive(Drop)]
pub(crate) struct Report {
    alloc: Global,
    is_asked: bool,
    suites: Vec<u8>,
    cases: Vec<u8>,
}

// Writes how many sequences there are, and how many failed.
fn put_counts(score: Score, writing: &mut Writing) {
    writing.put(" tests=\"");
    writing.show(&score.count());
    writing.put("\" failures=\"");
    writing.show(&score.failed);
    writing.put("\"");
}

// Writes what was told of a sequence that failed.
fn put_failure(told: &[u8], writing: &mut Writing) {
    let text = str::from_utf8(told).unwrap_or("");
    let first = match text.split_once('\n') {
        Some((first, _)) => first,
        None => text,
    };
    writing.put(">\n<failure");
    put_attribute("message", first, writing);
    writing.put(">");
    put_escaped(text, writing);
    writing.put("</failure>\n</testcase>\n");
}

// The line of a sequence, with what was told if it failed.
fn written_case(
    alloc: Global,
    case: Case<'_>,
    failure: Option<&Failure>,
) -> Result<Vec<u8>, AllocError> {
    let mut writing = Writing::new(alloc);
    let class = case.file.strip_suffix(".story").unwrap_or(case.file);
    writing.put("<testcase");
    put_attribute("classname", class, &mut writing);
    put_attribute("name", case.name, &mut writing);
    match failure {
        Some(failure) => {
            let told = failure.told(alloc, case.file, case.name)?;
            put_failure(&told, &mut writing);
        }
        None => writing.put("/>\n"),
    }
    writing.end()
}

impl Report {
    /// Before the first story.
    pub(crate) fn new(alloc: Global, is_asked: bool) -> Report {
        Report {
            alloc,
            is_asked,
            suites: Vec::new(alloc),
            cases: Vec::new(alloc),
        }
    }

    /// Adds a sequence, and the step that failed, if one did.
    pub(crate) fn add(
        &mut self,
        case: Case<'_>,
        failure: Option<&Failure>,
    ) -> Result<(), AllocError> {
        if self.is_asked {
            let written = written_case(self.alloc, case, failure)?;
            self.cases.extend_from_slice(&written)?;
        }
        Ok(())
    }

    /// Ends the story of a file, whose sequences went so.
    pub(crate) fn end_story(&mut self, file: &str, score: Score) -> Result<(), AllocError> {
        if !self.is_asked {
            return Ok(());
        }
        let mut head = Writing::new(self.alloc);
        head.put("<testsuite");
        put_attribute("name", file, &mut head);
        put_counts(score, &mut head);
        head.put(">\n");
        self.suites.extend_from_slice(&head.end()?)?;
        self.suites.extend_from_slice(&self.cases)?;
        self.suites.extend_from_slice(b"</testsuite>\n")?;
        self.cases = Vec::new(self.alloc);
        Ok(())
    }

    /// The whole report of stories that went so; nothing where none is asked for.
    pub(crate) fn end(&self, score: Score) -> Result<Vec<u8>, AllocError> {
        if !self.is_asked {
            return Ok(Vec::new(self.alloc));
        }
        let mut head = Writing::new(self.alloc);
        head.put("<?xml version=\"1.0\" encoding=\"UTF-8\"?>\n<testsuites");
        put_counts(score, &mut head);
        head.put(">\n");
        let mut whole = head.end()?;
        whole.extend_from_slice(&self.suites)?;
        whole.extend_from_slice(b"</testsuites>\n")?;
        Ok(whole)
    }
}
