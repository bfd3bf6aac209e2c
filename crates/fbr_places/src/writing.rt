//! Texts that are put together in memory.

use std::alloc::{AllocError, Global};
use std::fmt::Display;
use std::io::Write;

/// What is written for people so far. It is handed out whole or not at all: where memory runs out on the way, its end tells it, so that no step has to.
#[derive(Drop)]
pub struct Writing {
    bytes: Vec<u8>,
    is_whole: bool,
}

impl Writing {
    /// Nothing so far.
    pub fn new(alloc: Global) -> Writing {
        Writing {
            bytes: Vec::new(alloc),
            is_whole: true,
        }
    }

    /// Adds a text.
    pub fn put(&mut self, text: &str) {
        if self.bytes.extend_from_slice(text.as_bytes()).is_err() {
            self.is_whole = false;
        }
    }

    /// Adds a number, or another value as people read it.
    pub fn show<D: Display>(&mut self, value: &D) {
        if write!(self.bytes, "{value}").is_err() {
            self.is_whole = false;
        }
    }

    /// Its bytes, for what writes anywhere and tells by itself where that fails.
    pub fn bytes(&mut self) -> &mut Vec<u8> {
        &mut self.bytes
    }

    /// What was written as a text, if memory held all of it and it is one.
    pub fn text(self) -> Result<String, AllocError> {
        match String::from_utf8(self.end()?) {
            Ok(text) => Ok(text),
            Err(_) => Err(AllocError),
        }
    }

    /// What was written, if memory held all of it.
    pub fn end(self) -> Result<Vec<u8>, AllocError> {
        let Writing { bytes, is_whole } = self;
        if is_whole { Ok(bytes) } else { Err(AllocError) }
    }
}
