//! Texts in XML 1.0.

use fbr_places::Writing;

// What stands in the place of a character that XML 1.0 does not have.
const NO_CHARACTER: &str = "\u{FFFD}";

// Whether XML 1.0 does not have a character.
fn is_unknown(character: char) -> bool {
    match character {
        '\t' | '\n' | '\r' => false,
        '\u{0}'..='\u{1F}' | '\u{FFFE}' | '\u{FFFF}' => true,
        _ => false,
    }
}

// Writes a character of a text; in an attribute a line feed and a tab would be read as spaces.
fn put_character(character: char, is_attribute: bool, writing: &mut Writing) {
    match character {
        '&' => writing.put("&amp;"),
        '<' => writing.put("&lt;"),
        '>' => writing.put("&gt;"),
        '"' => writing.put("&quot;"),
        '\r' => writing.put("&#13;"),
        '\n' if is_attribute => writing.put("&#10;"),
        '\t' if is_attribute => writing.put("&#9;"),
        _ => {
            if is_unknown(character) {
                writing.put(NO_CHARACTER);
            } else {
                writing.show(&character);
            }
        }
    }
}

/// Writes a text between tags.
pub fn put_escaped(text: &str, writing: &mut Writing) {
    for character in text.chars() {
        put_character(character, false, writing);
    }
}

/// Writes an attribute of a name, with a space before it.
pub fn put_attribute(name: &str, text: &str, writing: &mut Writing) {
    writing.put(" ");
    writing.put(name);
    writing.put("=\"");
    for character in text.chars() {
        put_character(character, true, writing);
    }
    writing.put("\"");
}
