//! Texts in labels, which are written as those of HTML.

use std::alloc::{AllocError, Global};

// How a label spells a character: signs of HTML by their names, and what no label can have as `?`.
fn spelled(character: char) -> Option<&'static str> {
    match character {
        '&' => Some("&amp;"),
        '<' => Some("&lt;"),
        '>' => Some("&gt;"),
        '"' => Some("&quot;"),
        '\u{7f}' | '\u{fffe}' | '\u{ffff}' => Some("?"),
        _ => (character < ' ').then_some("?"),
    }
}

/// A text as a label shows it.
pub fn shown(alloc: Global, text: &str) -> Result<String, AllocError> {
    let mut label = String::new(alloc);
    for character in text.chars() {
        match spelled(character) {
            Some(name) => label.push_str(name)?,
            None => label.push(character)?,
        }
    }
    Ok(label)
}

/// A file without its folders.
pub fn last_of(path: &str) -> &str {
    match path.rsplit_once('/') {
        Some((_, name)) => name,
        None => path,
    }
}
