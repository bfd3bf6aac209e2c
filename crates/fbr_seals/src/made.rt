//! New keys.

ghost use Rattle.std.specs.Prelude.{◌≡◌, ◌≤◌, ℕ, List, IfOk, option_map};
ghost use Rattle.fbr_files.specs.Writing.{LeavesAll};
ghost use Rattle.fbr_words.specs.Program.{if_named};
ghost use Rattle.fbr_seals.specs.Making.{TellsKey};

use fb_keys::{State, spell};
use fbr_files::{Fault, Sources, print_outcome};
use std::alloc::Global;
use std::io;
use std::io::Write;
use std::random::RandomSource;

// What people are told where a state cannot be begun.
const NO_STATE: &str =
    "fbr: the state has to be a new file that can be written, and nothing is overwritten: a state that is begun anew under an old key would use its counters again";

// What people are told where there is no key.
const NO_KEY: &str = "fbr: the system gave no random bytes";

// Writes the state of a device that was never started into a new file, and answers whether that was done.
fn begin_state<F: Write>(alloc: Global, stream: &mut F) -> bool {
    let state = State {
        own: 0,
        entries: Vec::new(alloc),
    };
    match spell(alloc, &state) {
        Ok(text) => { stream.write_all(text.as_str().as_bytes()).is_ok() && stream.flush().is_ok() }
        Err(_) => false,
    }
}

// A key of 32 random bytes of the system.
fn random_key<R: RandomSource>(rt: &R) -> Option<[u8; 32]> {
    let mut key = [0u8; 32];
    match rt.fill_bytes(&mut key) {
        Ok(()) => Some(key),
        Err(_) => None,
    }
}

// Prints a key as 64 digits.
fn print_key<W: Write>(alloc: Global, key: &[u8; 32], output: &mut W) -> io::Result<u8>
    ensures told { IfOk result (λ status. TellsKey (W.contents output.old) (W.contents output.new) status) }
    ensures status { IfOk result (λ status. status ≤ 4) }
{
    let digits = hex::encode(alloc, key)?;
    let digits = digits.as_str();
    writeln!(output, "{digits}")?;
    Ok(0)
}

/// Prints a new key of 64 hexadecimal digits, from the system's random source; and first begins the state of a device in a new file, where one is named.
/// `File`, 61, where that file is there already or cannot be written, and `Input`, 61, where the system gives no random bytes.
pub fn make_key<R: AllocGlobal + RandomSource, S: Sources, W: Write, E: Write>(
    rt: &R,
    state: Option<&str>,
    files: &mut S,
    output: &mut W,
    errors: &mut E,
) -> io::Result<u8>
    ensures told { IfOk result (λ status. TellsKey (W.contents output.old) (W.contents output.new) status) }
    ensures others { LeavesAll (S.same files.old) (if_named (option_map (λ name. name.now) state.entry)) (S.contents files.old) (S.contents files.new) }
    ensures status { IfOk result (λ status. status ≤ 4) }
{
    let alloc = rt.alloc();
    let Some(key) = random_key(rt) else {
        let _ = writeln!(errors, "{NO_KEY}");
        return print_outcome(Err(Fault::Input), output);
    };
    let Some(name) = state else {
        return print_key(alloc, &key, output);
    };
    let is_begun = match files.create(Some(name), true) {
        Ok(mut stream) => begin_state(alloc, &mut stream),
        Err(_) => false,
    };
    if !is_begun {
        let _ = writeln!(errors, "{NO_STATE}");
        return print_outcome(Err(Fault::File(name)), output);
    }
    print_key(alloc, &key, output)
}
