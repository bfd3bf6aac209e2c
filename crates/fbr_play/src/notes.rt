//! What is told and kept of stories: how their sequences went, a report, and what has changed.

use crate::report::Report;
use fbr_course::{Case, Failure};
use fbr_watch::Watching;
use std::alloc::Global;
use std::io;
use std::io::Write;

/// Whether programs are told how sequences went, and not people; a report; and what watches the sequences.
#[derive(Drop)]
pub(crate) struct Notes<'s, 'a> {
    pub(crate) alloc: Global,
    pub(crate) is_json: bool,
    pub(crate) report: Report,
    pub(crate) watching: Watching<'s, 'a, Vec<u8>>,
}

impl Notes<'_, '_> {
    /// Notes how a sequence went. People are told if it failed, programs of each.
    pub(crate) fn add<W: Write>(
        &mut self,
        case: Case<'_>,
        failure: Option<&Failure>,
        output: &mut W,
    ) -> io::Result<()> {
        if self.is_json {
            case.object(self.alloc, failure).write(output)?;
        } else if let Some(failure) = failure {
            output.write_all(&failure.told(self.alloc, case.file, case.name)?)?;
        }
        Ok(self.report.add(case, failure)?)
    }
}
