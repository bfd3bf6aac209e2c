//! Standard input as a file, where words name it so.

use fbr_files::{ReadFault, read_whole};
use std::alloc::Global;
use std::io::Read;

// How many words are `-`, but for those behind an option that names no file to be read.
fn count_named(words: &[&str]) -> usize {
    let mut count: usize = 0;
    let mut is_value = false;
    for word in words {
        if *word == "-" && !is_value {
            count = count.saturating_add(1);
        }
        is_value = matches!(
            *word,
            "-o" | "--output"
                | "--repeats"
                | "--room"
                | "--chart"
                | "--calibration"
                | "--from"
                | "--to"
        );
    }
    count
}

// Whether a file of `bound`, `check`, `explain`, `draw`, `pack` or `time` is named `-`, and only one.
fn is_named(words: &[&str]) -> bool {
    match words.get(1).copied() {
        Some("bound" | "check" | "explain" | "draw" | "pack" | "time") => count_named(words) == 1,
        _ => false,
    }
}

/// What standard input holds, where words name it as a file, `-`, of `bound`, `check`, `explain`, `draw`, `pack` or `time`. No file is named so where there is no such word, or
/// more than one; and then it is not read.
pub fn input_named<I: Read>(
    alloc: Global,
    words: &[&str],
    input: &mut I,
) -> Result<Vec<u8>, ReadFault> {
    if is_named(words) {
        read_whole(alloc, input)
    } else {
        Err(ReadFault::Unreadable)
    }
}
