//! Notes, told to people.

use fbr_notes::marked::Marked;
use fbr_notes::noted::{NoteKind, Notes};
use fbr_places::{Named, Writing};
use std::alloc::{AllocError, Global};

// Ends the line of a note with its name in brackets.
fn put_name(kind: NoteKind, writing: &mut Writing) {
    writing.put(" [");
    writing.put(kind.name());
    writing.put("]\n");
}

/// Writes notes on a text, a line each, and behind them at how many more places arithmetic may wrap.
pub fn tell_notes(
    alloc: Global,
    app: Named<'_>,
    notes: &Notes,
    writing: &mut Writing,
) -> Result<(), AllocError> {
    let marked = Marked::of(alloc, app)?;
    for ((kind, at), says) in notes.places.iter().zip(notes.said.lines()) {
        if let Some(located) = marked.at_byte(*at) {
            located.put(writing);
        }
        writing.put(": note: ");
        writing.put(says);
        put_name(*kind, writing);
    }
    if notes.more > 0 {
        writing.put(app.name);
        writing.put(": note: arithmetic may wrap at ");
        writing.show(&notes.more);
        writing.put(" more places");
        put_name(NoteKind::ArithmeticMayWrap, writing);
    }
    Ok(())
}
