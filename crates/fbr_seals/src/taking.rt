//! The state that a device starts with.

ghost use Rattle.std.specs.Prelude.{◌≡◌, MatchResult};
ghost use Rattle.fb_keys.specs.Views.{state_of};
ghost use Rattle.fbr_files.specs.Outcomes.{IsReadFault};
ghost use Rattle.fbr_files.specs.Writing.{LeavesOthers};
ghost use Rattle.fbr_seals.specs.Sealing.{TakesState};

use fb_keys::{State, read_state, spell};
use fbr_files::{Fault, Sources, put_text, read_file};
use std::alloc::Global;
use std::io::Write;

/// How many own counters are written down at the start.
const FIRST: u64 = 65_536;

// What people are told where there is no state.
const NO_STATE: &str =
    "fbr: the state file cannot be read, and counters are never begun anew in silence. For a device that was never started, `fbr key --state FILE` begins it, and makes the new key that belongs to it. Where it was lost, do the same, and give the new key to all that hear the device: under the old one they would drop what it sends, and it would take again what was recorded";

// What people are told where a text is no state's.
const DAMAGED: &str =
    "fbr: the state file is damaged or cut, and is not used. `fbr key --state FILE`, with another name, begins a new one, and makes the new key that belongs to it";

// What people are told where there are no more counters.
const SPENT: &str =
    "fbr: no counters are left in the state file: begin a new one, with a new key, by `fbr key --state FILE`";

/// The state that a device starts with, in which 65,536 own counters are written down from the first one on that was not used before. The file holds that
/// state then, and has it on the disk, before this returns: no two starts use the same counter. `File`, 61, where the file cannot be read or written, or
/// holds no state, as one that was cut; then it holds what it held, and people are told what to do.
pub fn take_state<'a, S: Sources, E: Write>(
    alloc: Global,
    files: &mut S,
    name: &'a str,
    errors: &mut E,
) -> Result<State, Fault<'a>>
    ensures taken { MatchResult result (λ state. TakesState (S.contents files.old name.now) (S.contents files.new name.now) (state_of state)) (λ f. IsReadFault name.now f × (S.contents files.new name.now ≡ S.contents files.old name.now)) }
    ensures others { LeavesOthers (S.same files.old) name.now (S.contents files.old) (S.contents files.new) }
    ensures names { S.same files.new ≡ S.same files.old }
{
    let file = read_file(alloc, files, name);
    let text = match file.text() {
        Ok(text) => text,
        Err(fault) => {
            let _ = writeln!(errors, "{NO_STATE}");
            return Err(fault);
        }
    };
    let mut state = match read_state(alloc, text) {
        Ok(Some(state)) => state,
        Ok(None) => {
            let _ = writeln!(errors, "{DAMAGED}");
            return Err(Fault::File(name));
        }
        Err(_) => return Err(Fault::Memory),
    };
    match state.own.checked_add(FIRST) {
        Some(own) => state.own = own,
        None => {
            let _ = writeln!(errors, "{SPENT}");
            return Err(Fault::File(name));
        }
    }
    match spell(alloc, &state) {
        Ok(text) => match put_text(files, name, text.as_str().as_bytes()) {
            Ok(()) => Ok(state),
            Err(fault) => Err(fault),
        },
        Err(_) => Err(Fault::Memory),
    }
}
