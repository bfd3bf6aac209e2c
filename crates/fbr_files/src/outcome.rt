//! The line that a command tells, and the status that it ends with.

ghost use Rattle.std.specs.Prelude.{◌≡◌, ◌≤◌, IfOk};
ghost use Rattle.std.specs.Io.KnownBytes.{Appends};
ghost use Rattle.fbr_files.specs.Outcomes.{Tells, outcome_said};

use crate::fault::Fault;
use std::io;
use std::io::Write;

/// Prints the line of an outcome, and gives the program's status.
pub fn print_outcome<W: Write>(outcome: Result<(), Fault<'_>>, output: &mut W) -> io::Result<u8>
    ensures told { IfOk result (λ status. Tells (outcome_said outcome.entry) (W.contents output.old) (W.contents output.new) status) }
    ensures status { IfOk result (λ status. status ≤ 4) }
{
    match outcome {
        Ok(()) => {
            writeln!(output, "accepted")?;
            Ok(0)
        }
        Err(fault) => {
            let status = fault.status();
            writeln!(output, "{fault}")?;
            Ok(status)
        }
    }
}

/// Prints a text as it is.
pub fn print_text<W: Write>(text: &str, output: &mut W) -> io::Result<u8>
    ensures told { IfOk result (λ status. (status ≡ 0) × Appends (W.contents output.old) (W.contents output.new) text.now) }
    ensures status { IfOk result (λ status. status ≤ 4) }
{
    write!(output, "{text}")?;
    Ok(0)
}
