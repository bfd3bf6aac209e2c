//! What people are told on standard error of notes on what is accepted: how many there are, and which words show them. It is tested, and no contract says it.

use crate::given::NamedFile;
use crate::line::hand_out;
use fb_verified::Verified;
use fbr_diagnosis::notes_of;
use fbr_notes::noted::unknown_in;
use fbr_places::Writing;
use std::alloc::Global;
use std::io::Write;

/// What the words of a command give to `explain`: a certificate's file, how often datagrams are delivered, and the names of notes that are allowed, with commas between
/// them.
#[derive(Clone, Copy)]
pub struct Words<'a> {
    pub cert: Option<&'a str>,
    pub repeats: Option<u8>,
    pub allowed: Option<&'a str>,
}

impl<'a> Words<'a> {
    /// The names of notes that are allowed; empty where there are none.
    pub fn names(self) -> &'a str {
        self.allowed.unwrap_or("")
    }
}

/// Writes which of the names that are allowed no note has, where there is one.
pub fn tell_unknown(allowed: &str, writing: &mut Writing) {
    if allowed.is_empty() {
        return;
    }
    if let Some(name) = unknown_in(allowed) {
        writing.put("fbr: `--allow`: no note has the name `");
        writing.put(name);
        writing.put("`\n");
    }
}

// Writes the words of `explain` that show the notes.
fn write_words(app: NamedFile<'_>, words: Words<'_>, writing: &mut Writing) {
    writing.put("'fbr explain ");
    writing.put(app.name);
    if let Some(cert) = words.cert {
        writing.put(" ");
        writing.put(cert);
    }
    app.put_with(writing);
    if let Some(repeats) = words.repeats {
        writing.put(" --repeats ");
        writing.show(&repeats);
    }
    if let Some(allowed) = words.allowed {
        writing.put(" --allow ");
        writing.put(allowed);
    }
    writing.put("'");
}

// Writes how many notes there are.
fn write_count(count: usize, app: NamedFile<'_>, words: Words<'_>, writing: &mut Writing) {
    writing.put("fbr: accepted; ");
    writing.show(&count);
    writing.put(if count == 1 { " note: " } else { " notes: " });
    write_words(app, words, writing);
    writing.put(if count == 1 {
        " shows it\n"
    } else {
        " shows them\n"
    });
}

/// Tells people how many notes there are on what is accepted, where there are some; and whether there are. Nothing is told where memory runs out.
pub fn tell_noted<E: Write>(
    alloc: Global,
    verified: &Verified,
    app: NamedFile<'_>,
    words: Words<'_>,
    errors: &mut E,
) -> bool {
    let mut writing = Writing::new(alloc);
    let mut count: usize = 0;
    tell_unknown(words.names(), &mut writing);
    if let Some(named) = app.named() {
        if let Ok(notes) = notes_of(alloc, verified, named, words.names()) {
            count = notes.count();
        }
        if count > 0 {
            write_count(count, app, words, &mut writing);
        }
    }
    hand_out(writing, errors);
    count > 0
}
