//! Words that ask for nothing.

ghost use Rattle.std.specs.Prelude.{◌≡◌, ◌≤◌, List, IfOk};
ghost use Rattle.clap.specs.Words.{Text};
ghost use Rattle.fbr_files.specs.declared.fault.Fault.TheVariants.{Memory, Usage};
ghost use Rattle.fbr_files.specs.Outcomes.{Tells, TellsUsage, refusal};
ghost use Rattle.fbr_words.specs.Program.{IsMisuse};
ghost use Rattle.fbr_words.specs.Requests.{IsMisread};
ghost use Rattle.fbr_words.specs.declared.reading.Misread.TheVariants as misreads;

use fbr_files::{Fault, print_outcome};
use fbr_words::Misread;
use std::io;
use std::io::Write;

/// Tells that the words are at fault, and people why.
pub fn misused<W: Write, E: Write>(why: &str, output: &mut W, errors: &mut E) -> io::Result<u8>
    ensures told { IfOk result (λ status. Tells (refusal Usage) (W.contents output.old) (W.contents output.new) status) }
    ensures status { IfOk result (λ status. status ≤ 4) }
{
    let _ = writeln!(errors, "{why}");
    print_outcome(Err(Fault::Usage), output)
}

/// Tells help, the version, or that the words are at fault, and people why.
pub fn tell_misread<W: Write, E: Write>(
    misread: Misread,
    output: &mut W,
    errors: &mut E,
) -> io::Result<u8>
    ensures memory { misread ≡ misreads.Memory → IfOk result (λ status. Tells (refusal Memory) (W.contents output.old) (W.contents output.new) status) }
    ensures usage { (words : List Text) → IsMisread words misread → IsMisuse words → IfOk result (λ status. TellsUsage (W.contents output.old) (W.contents output.new) status) }
    ensures status { IfOk result (λ status. status ≤ 4) }
{
    match misread {
        Misread::Memory => print_outcome(Err(Fault::Memory), output),
        Misread::Help(help) => {
            write!(output, "{help}")?;
            Ok(0)
        }
        Misread::Words(why) => {
            let _ = write!(errors, "{why}");
            print_outcome(Err(Fault::Usage), output)
        }
        Misread::Number(why) => misused(why, output, errors),
    }
}
