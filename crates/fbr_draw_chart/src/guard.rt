//! Names and guards as they stand in a text.

use fb_tree::Name;
use std::alloc::{AllocError, Global};

/// A name with the letters that it has at its place in a text.
pub fn spelled<'a>(text: &'a str, name: &'a Name) -> &'a str {
    let rest = text.get(name.at..).unwrap_or("");
    rest.get(..name.text.len()).unwrap_or(name.text.as_str())
}

// What is read of a guard, with as much as is still to be said of it.
#[derive(Clone, Copy)]
struct Reading {
    // How many brackets are open.
    depth: usize,
    // How many bytes of a comment are read, 0 outside of one.
    comment: usize,
    // Whether the last byte of a comment was a `*`.
    star: bool,
    // Whether layout or a comment stands before.
    gap: bool,
}

impl Reading {
    // Reads a byte that stands in a comment.
    fn pass(&mut self, byte: u8) {
        self.comment = self.comment.saturating_add(1);
        if byte == b')' && self.star && self.comment > 3 {
            self.comment = 0;
            self.gap = true;
        }
        self.star = byte == b'*';
    }

    // Whether a byte, with the one behind it, is of layout or of a comment: it is then read.
    fn skips(&mut self, byte: u8, next: Option<u8>) -> bool {
        if self.comment > 0 {
            self.pass(byte);
            return true;
        }
        if byte == b'(' && next == Some(b'*') {
            self.comment = 1;
            self.star = false;
            return true;
        }
        if byte.is_ascii_whitespace() {
            self.gap = true;
            return true;
        }
        false
    }

    // Counts a bracket. Whether it is the last one.
    fn closes(&mut self, byte: u8) -> bool {
        if byte == b'[' {
            self.depth = self.depth.saturating_add(1);
        }
        if byte == b']' {
            self.depth = self.depth.saturating_sub(1);
            return self.depth == 0;
        }
        false
    }

    // Whether a blank stands before a byte that is read: not behind the first bracket and before the last one.
    fn parts(&mut self, byte: u8, is_begun: bool) -> bool {
        let gap = self.gap && is_begun && (byte != b']' || self.depth > 1);
        self.gap = false;
        gap
    }
}

/// A guard with its brackets as it stands at its place in a text, on one line and without comments.
pub fn guard_in(alloc: Global, text: &str, at: usize) -> Result<String, AllocError> {
    let bytes = text.get(at..).unwrap_or("").as_bytes();
    let mut guard = String::new(alloc);
    let mut reading = Reading {
        depth: 0,
        comment: 0,
        star: false,
        gap: false,
    };
    for (index, byte) in bytes.iter().enumerate() {
        let next = bytes.get(index.saturating_add(1)).copied();
        if !reading.skips(*byte, next) {
            if reading.parts(*byte, guard.len() > 1) {
                guard.push(' ')?;
            }
            guard.push(char::from(*byte))?;
            if reading.closes(*byte) {
                return Ok(guard);
            }
        }
    }
    Ok(guard)
}
