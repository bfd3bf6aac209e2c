//! States that are read.

ghost use Rattle.std.specs.Prelude.{◌≡◌, IfOk, IfSome};
ghost use Rattle.fb_keys.specs.State.{state_text};
ghost use Rattle.fb_keys.specs.Views.{state_of};

use crate::state::{Entry, State, spell};
use fb_numbers::{read_number, read_wide_number, words_of};
use std::alloc::{AllocError, Global};

// The entry that three words say.
fn read_entry(number: &str, mark: &str, upto: &str) -> Option<Entry> {
    let mut bytes = [0u8; 16];
    if hex::decode_to_slice(mark, &mut bytes).is_err() {
        return None;
    }
    match (read_number(number), read_wide_number(upto)) {
        (Some(number), Some(upto)) => Some(Entry {
            number,
            mark: bytes,
            upto,
        }),
        _ => None,
    }
}

// Takes a line, as far as it says something.
fn take_line(state: &mut State, words: &[&str]) -> Result<(), AllocError> {
    match words {
        [verb, own] => {
            if *verb == "own" {
                state.own = read_wide_number(own).unwrap_or(0);
            }
            Ok(())
        }
        [_, number, mark, upto] => match read_entry(number, mark, upto) {
            Some(entry) => state.entries.push(entry).map_err(AllocError::from),
            None => Ok(()),
        },
        _ => Ok(()),
    }
}

// What the lines of a text say; a text that is no state's is told by what is spelled of it.
fn said_in(alloc: Global, text: &str) -> Result<State, AllocError> {
    let mut state = State {
        own: 0,
        entries: Vec::new(alloc),
    };
    for line in text.lines() {
        let words = words_of(alloc, line)?;
        take_line(&mut state, words.as_slice())?;
    }
    Ok(state)
}

/// The state whose text this is; `None` where it is no state's, as one that was cut or damaged.
pub fn read_state(alloc: Global, text: &str) -> Result<Option<State>, AllocError>
    ensures { IfOk result (λ read. IfSome read (λ state. text.now ≡ state_text (state_of state))) }
{
    let state = said_in(alloc, text)?;
    let again = spell(alloc, &state)?;
    if again.as_str() == text {
        Ok(Some(state))
    } else {
        Ok(None)
    }
}
