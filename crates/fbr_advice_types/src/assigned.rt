//! Variables that are assigned where they cannot be.

use fb_tree::FileTree;
use fb_words::Mark;
use fbr_advice::advice::Advice;
use fbr_advice::kinds::{Known, known_in};
use fbr_advice::tokens::{mark_of, name_of, open_before};
use fbr_advice::wanted::Cursor;
use fbr_places::{Named, block_around, tell_where};

// Where the FOR stands that counts with a variable around a place.
fn counted_by(place: Cursor<'_>, name: &str) -> Option<usize> {
    let mut index = place.index;
    for _ in 0..place.index {
        index = open_before(place.tokens, index)?;
        let token = place.tokens.get(index)?;
        let counter = name_of(place.tokens.get(index.saturating_add(1))).unwrap_or("");
        if matches!(mark_of(Some(token)), Some(Mark::For)) && counter == name {
            return Some(token.start);
        }
    }
    None
}

/// Writes why the variable whose name is at a byte is not assigned there.
pub fn tell_assigned(
    file: &FileTree,
    app: Named<'_>,
    place: Cursor<'_>,
    at: usize,
    advice: &mut Advice,
) {
    let (Some(name), Some(block)) = (name_of(place.before(0)), block_around(file, at)) else {
        return;
    };
    if let Some(Known::Input) = known_in(block, name) {
        advice.said.put(name);
        advice.said.put(" is a data input of ");
        advice.said.put(block.name.text.as_str());
        advice.said.put(", and algorithms can only read it");
        advice.end(
            "assign a VAR or a VAR_OUTPUT; copy the input into it first if need be",
            "",
        );
        return;
    }
    let before = match mark_of(place.before(1)) {
        Some(Mark::For) => Cursor {
            tokens: place.tokens,
            index: place.index.saturating_sub(1),
        },
        _ => place,
    };
    if let Some(start) = counted_by(before, name) {
        advice.said.put(name);
        advice.said.put(" counts the FOR at ");
        tell_where(app, start, &mut advice.said);
        advice.said.put(", and its body cannot assign it");
        advice.end("take another variable here", "");
    }
}
