//! Characters that begin no token.

use fbr_advice::advice::Advice;
use fbr_advice::foreign::{COMMENT, TIMES, foreign_text};
use fbr_places::Writing;
use std::fmt;

// That a comment does not begin with `#`.
const COMMENT_SIGN: &str = "`#` does not begin a comment: write it as `(* .. *)`";

// What stands before a `#`.
const LITERALS: &str =
    "there is no literal of this form: write a number as 16#7F or INT#-5, and a time as T#500ms; there are no enumerations";

// Signs that other languages have, and what there is to say of them, a line each.
const SIGNS: &str = "!= there is no `!=`: write `<>`
! there is no `!`: write NOT
|| there is no `||`: write OR
| there are no bit strings, and no `|`: OR takes truth values
^ there is no `^`: multiply for a power; XOR takes truth values
%I there are no addresses: bring values in by INPUT, and out by OUTPUT
%Q there are no addresses: bring values in by INPUT, and out by OUTPUT
%M there are no addresses: bring values in by INPUT, and out by OUTPUT
% there is no `%`: write MOD
{ there are no braces and no pragmas: write THEN .. END_IF or DO .. END_FOR, and a comment as `(* .. *)`
} there are no braces and no pragmas: write THEN .. END_IF or DO .. END_FOR, and a comment as `(* .. *)`
\" there are no strings: send numbers, and let the other end word them
' there are no strings: send numbers, and let the other end word them
\u{feff} this is a byte order mark: save the text without one";

// What there is to say of a sign that other languages have.
fn said_of_sign(rest: &str) -> Option<&'static str> {
    for line in SIGNS.split('\n') {
        if let Some((sign, says)) = line.split_once(' ') {
            if rest.starts_with(sign) {
                return Some(says);
            }
        }
    }
    None
}

// The letters, digits and `_` at the end of a line.
fn last_word(line: &str) -> &str {
    let mut start: usize = 0;
    for (at, character) in line.char_indices() {
        if !character.is_ascii_alphanumeric() && character != '_' {
            start = at.saturating_add(character.len_utf8());
        }
    }
    line.get(start..).unwrap_or("")
}

// What there is to say of a `#`, by what stands before it in its line.
fn said_of_hash(line: &str) -> &'static str {
    let word = last_word(line);
    if word.eq_ignore_ascii_case("T") || word.eq_ignore_ascii_case("TIME") {
        TIMES
    } else if word.is_empty() {
        COMMENT_SIGN
    } else {
        LITERALS
    }
}

// What there is to say of a character that ASCII has, or of a byte order mark, by what stands before it in its line.
fn said_of(before: &str, rest: &str) -> Option<&'static str> {
    let line = match before.rsplit_once('\n') {
        Some((_, line)) => line,
        None => before,
    };
    if rest.starts_with("(*") {
        return Some(
            "a comment begins here, and no `*)` closes it: write `*)` where it ends; comments do not nest",
        );
    }
    if line.contains("//") {
        return Some(COMMENT);
    }
    if rest.starts_with('#') {
        return Some(said_of_hash(line));
    }
    said_of_sign(rest)
}

// The number of a character as Unicode writes it: `U+` and four hexadecimal digits or more.
#[derive(Drop)]
struct Code(u32);

impl fmt::Display for Code {
    ghost use Rattle.std.specs.Prelude.{None};

    ghost output = { λ _. None };

    fn fmt<W: fmt::Write>(&self, f: &mut fmt::Formatter<W>) -> fmt::Result {
        let number = self.0;
        write!(f, "U+{number:04X}")
    }
}

// Writes the number of a character that ASCII has not, and what to write for it.
fn tell_number(character: char, advice: &mut Advice) {
    put_number(character, &mut advice.said);
    match character {
        '\u{a0}' | '\u{2000}'..='\u{200b}' | '\u{202f}' | '\u{205f}' | '\u{3000}' => {
            advice.said.put(", a blank that is none");
            advice.end("write a space", "");
        }
        '\u{2010}'..='\u{2015}' | '\u{2212}' => {
            advice.said.put(", and no ASCII");
            advice.end("write `-`", "");
        }
        _ => advice.end("spell names with the letters A to Z, digits and `_`", ""),
    }
}

// Writes the number of a character.
fn put_number(character: char, writing: &mut Writing) {
    writing.put("this is ");
    writing.show(&Code(u32::from(character)));
}

/// Writes what there is to say of the character at a byte, where no token begins.
pub fn tell_character(text: &str, at: usize, advice: &mut Advice) {
    let Some((before, rest)) = text.split_at_checked(at) else {
        return;
    };
    match (
        foreign_text(text).or(said_of(before, rest)),
        rest.chars().next(),
    ) {
        (Some(says), _) => advice.put(says),
        (None, Some(character)) if !character.is_ascii() => tell_number(character, advice),
        (None, Some(_)) => {
            advice.said.put("the language has no such character\n");
            advice.remedy.put("remove the character");
        }
        _ => {}
    }
}
