//! What is at fault in a story.

use fbr_places::Writing;
use std::alloc::{AllocError, AllocFailed, Global};

/// Why a story cannot be played.
#[derive(Drop)]
pub enum Fault {
    /// Memory ran out.
    Memory,
    /// What begins at a byte of the story is at fault, and what people are told of it.
    At(usize, Vec<u8>),
}

impl From<AllocError> for Fault {
    fn from(_: AllocError) -> Fault {
        Fault::Memory
    }
}

impl<T: Drop> From<AllocFailed<T>> for Fault {
    fn from(_: AllocFailed<T>) -> Fault {
        Fault::Memory
    }
}

impl Fault {
    /// A fault at a byte, with what was written of it.
    pub fn written(at: usize, writing: Writing) -> Fault {
        match writing.end() {
            Ok(text) => Fault::At(at, text),
            Err(_) => Fault::Memory,
        }
    }

    /// A fault at a byte, told by these words, one after another.
    pub fn at(alloc: Global, at: usize, words: &[&str]) -> Fault {
        let mut writing = Writing::new(alloc);
        for word in words {
            writing.put(*word);
        }
        Fault::written(at, writing)
    }
}
