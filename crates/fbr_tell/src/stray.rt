//! What people are told of a file that is no UTF-8. It is tested, and no contract says it.

use crate::given::{Held, NamedFile};
use fbr_places::Spot;
use std::alloc::Global;

/// What to do about a file that is no UTF-8.
pub const AS_UTF8: &str = "save the file as UTF-8";

// The first byte that is no UTF-8, in one sentence.
fn stray_byte(alloc: Global, bytes: &[u8]) -> Option<String> {
    let at = str::from_utf8(bytes).err()?.valid_up_to();
    let byte = bytes.get(at)?;
    let before = str::from_utf8(bytes.get(..at)?).ok()?;
    let spot = Spot::of_byte(before, at)?;
    let line = spot.line;
    let column = spot.column;
    format!(in alloc;
        "the text is no UTF-8: byte 0x{byte:02X} at line {line}, column {column}"
    ).ok()
}

/// The first byte of a file that is no UTF-8, in one sentence, where bytes of it were read that are no text.
pub fn stray_in(alloc: Global, file: Option<NamedFile<'_>>) -> Option<String> {
    match file?.held {
        Held::Bytes(bytes) => stray_byte(alloc, bytes),
        _ => None,
    }
}
