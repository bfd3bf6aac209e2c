//! How sequences went, in all.

ghost use Rattle.std.specs.Prelude.{◌≡◌, ◌≤◌, IfOk};
ghost use Rattle.fbr_score.specs.Scores.{TellsEnd, TellsScore, counted, no_score, status_of, with_score, with_sequence};

use fbr_files::{Fault, print_outcome};
use std::io::Write;
use std::{fmt, io};

/// How many sequences passed, and how many failed.
#[derive(Clone, Copy)]
pub struct Score {
    pub passed: u64,
    pub failed: u64,
}

/// `12 passed, 1 failed`
impl fmt::Display for Score {
    ghost use Rattle.std.specs.Prelude.{Some};
    ghost use Rattle.fbr_score.specs.Scores.{score_text};

    ghost output = { λ s. Some (score_text s) };

    fn fmt<W: fmt::Write>(&self, f: &mut fmt::Formatter<W>) -> fmt::Result {
        let Score { passed, failed } = *self;
        write!(f, "{passed} passed, {failed} failed")
    }
}

impl Score {
    /// Before the first sequence.
    pub fn none() -> Score
        ensures { result ≡ no_score }
    {
        Score {
            passed: 0,
            failed: 0,
        }
    }

    /// With the sequences of another story. A count stays where it can rise no more.
    pub fn with(self, other: Score) -> Score
        ensures { result ≡ with_score self other }
    {
        Score {
            passed: self.passed.saturating_add(other.passed),
            failed: self.failed.saturating_add(other.failed),
        }
    }

    /// With a sequence more, which failed or passed.
    pub fn after(self, is_failed: bool) -> Score
        ensures { result ≡ with_sequence self is_failed }
    {
        self.with(Score {
            passed: if is_failed { 0 } else { 1 },
            failed: if is_failed { 1 } else { 0 },
        })
    }

    /// How many sequences were played. The count stays where it can rise no more.
    pub fn count(self) -> u64
        ensures { result ≡ counted self }
    {
        self.passed.saturating_add(self.failed)
    }

    /// The program's status: 1 where a sequence failed.
    pub fn status(self) -> u8
        ensures said { result ≡ status_of self }
        ensures most { result ≤ 4 }
    {
        if self.failed > 0 { 1 } else { 0 }
    }
}

/// Tells how many sequences passed and failed, and gives the program's status: 1 where one failed.
pub fn print_score<W: Write>(score: Score, output: &mut W) -> io::Result<u8>
    ensures told { IfOk result (λ status. TellsScore score (W.contents output.old) (W.contents output.new) status) }
    ensures status { IfOk result (λ status. status ≤ 4) }
{
    writeln!(output, "{score}")?;
    Ok(score.status())
}

/// Tells how many sequences passed and failed, or why stories were not played to their end, and gives the program's status.
pub fn print_end<W: Write>(outcome: Result<Score, Fault<'_>>, output: &mut W) -> io::Result<u8>
    ensures told { IfOk result (λ status. TellsEnd outcome.entry (W.contents output.old) (W.contents output.new) status) }
    ensures status { IfOk result (λ status. status ≤ 4) }
{
    match outcome {
        Ok(score) => print_score(score, output),
        Err(fault) => print_outcome(Err(fault), output),
    }
}
