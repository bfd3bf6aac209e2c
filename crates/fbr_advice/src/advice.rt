//! What is told of a place of a text.

use fbr_places::Writing;
use std::alloc::Global;

/// What was found at a place of a text, and what to do about it.
#[derive(Drop)]
pub struct Advice {
    /// What was found, a sentence a line.
    pub said: Writing,
    /// What to do about this mistake; empty where no more is known than its number says.
    pub remedy: Writing,
    /// Whether the first sentence says it already.
    pub is_plain: bool,
}

impl Advice {
    /// Nothing so far.
    pub fn new(alloc: Global) -> Advice {
        Advice {
            said: Writing::new(alloc),
            remedy: Writing::new(alloc),
            is_plain: false,
        }
    }

    /// Adds a sentence, and behind its first `: ` what to do.
    pub fn put(&mut self, sentence: &str) {
        match sentence.split_once(": ") {
            Some((found, remedy)) => {
                self.said.put(found);
                self.remedy.put(remedy);
            }
            None => self.said.put(sentence),
        }
        self.said.put("\n");
    }

    /// Ends a sentence, and adds what to do, in two parts.
    pub fn end(&mut self, one: &str, two: &str) {
        self.said.put("\n");
        self.remedy.put(one);
        self.remedy.put(two);
    }
}
