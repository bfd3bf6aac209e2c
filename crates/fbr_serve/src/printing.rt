//! What a turn prints.

ghost use Rattle.std.specs.Prelude.{◌≡◌, ◌++◌, false, IfOk, codes};
ghost use Rattle.std.specs.Io.KnownBytes.{Appends, Keeps};
ghost use Rattle.fb_model.specs.Turning.{Written as WrittenAt};
ghost use Rattle.fbr_serve.specs.Serving.{sight_lines, write_line};
ghost use Rattle.fbr_serve.specs.Recording.{sight_word};

use crate::notes::Notes;
use fb_device::{Denied, Device, Dispatched, Effect};
use fb_script::Written;
use fb_turn::Watch;
use std::io;
use std::io::Write;

/// The moment of a turn, in milliseconds, and whether its lines begin with it.
#[derive(Clone, Copy)]
pub(crate) struct When {
    pub now: u64,
    pub is_told: bool,
}

/// Prints what OUTPUTs write, a line each, records what comes, and tells people of all that it sees.
#[derive(Drop)]
pub(crate) struct Printer<'a, 'b, W, E, F> {
    pub output: &'a mut W,
    pub notes: &'b mut Notes<E, F>,
    pub when: When,
    /// Whether a line was lost.
    pub is_lost: bool,
}

/// Prints what an OUTPUT writes.
pub(crate) fn print_write<W: Write>(
    output: &mut W,
    when: When,
    number: u16,
    values: &[i64],
) -> io::Result<()>
    ensures { IfOk result (λ _. Appends (W.contents output.old) (W.contents output.new) (write_line when.is_told when.now (record { number = number; values = values.now }))) }
{
    let written = Written(number, values);
    if when.is_told {
        let now = when.now;
        writeln!(output, "{now} {written}")
    } else {
        writeln!(output, "{written}")
    }
}

impl<W: Write, E: Write, F: Write> Watch for Printer<'_, '_, W, E, F> {
    ghost sees = { λ p sight q. ((q.output.ghost_name ≡ p.output.ghost_name) × (q.when.now ≡ p.when.now) × (q.when.is_told ≡ p.when.is_told)
        × (q.is_lost ≡ false → (p.is_lost ≡ false) × Appends (W.contents p.output.now) (W.contents q.output.now) (sight_lines p.when.is_told p.when.now sight)))
        × ((q.notes.ghost_name ≡ p.notes.ghost_name) × (q.notes.now.recorder.stream ≡ p.notes.now.recorder.stream)
        × (q.notes.now.recorder.is_lost ≡ false → (p.notes.now.recorder.is_lost ≡ false) × (q.notes.now.recorder.line.items ≡ p.notes.now.recorder.line.items ++ sight_word sight))) };

    fn came(&mut self, device: &Device, bytes: &[u8], answer: &Result<u64, Denied>) {
        let notes = &mut *self.notes;
        notes.recorder.came(bytes);
        notes
            .people
            .came(&mut notes.errors, self.when.now, device, bytes, answer);
    }

    fn served(&mut self, device: &Device, answer: &Dispatched, is_taken: bool) {
        if let Dispatched::Ran(ran) = answer {
            let notes = &mut *self.notes;
            if let Some(Effect::Write(number, values)) = &ran.effect {
                let printed = print_write(self.output, self.when, *number, values.as_slice());
                if printed.is_err() {
                    self.is_lost = true;
                    notes.people.lost_line();
                }
            }
            notes
                .people
                .ran(&mut notes.errors, self.when.now, device, ran, is_taken);
        }
    }
}

/// Lets people see what was printed, as far as the writer has not yet shown it.
pub(crate) fn flushed<W: Write>(output: &mut W) -> bool
    ensures { Keeps (W.contents output.old) (W.contents output.new) }
{
    output.flush().is_ok()
}
