//! What came otherwise than a step wants, and how a sequence went.

use fbr_objects::Object;
use fbr_places::Writing;
use std::alloc::{AllocError, Global};

/// A step that failed: its line in the story, counted from 1, its text, what it wants and what came, each on one line.
#[derive(Drop)]
pub struct Failure {
    pub(crate) line: usize,
    pub(crate) step: String,
    pub(crate) wanted: String,
    pub(crate) came: String,
}

/// A sequence that was played: the file of its story, and its name.
#[derive(Clone, Copy)]
pub struct Case<'a> {
    pub file: &'a str,
    pub name: &'a str,
}

impl Failure {
    /// What people are told of it, in a sequence of the story of a file.
    pub fn told(&self, alloc: Global, file: &str, sequence: &str) -> Result<Vec<u8>, AllocError> {
        let mut writing = Writing::new(alloc);
        writing.put(file);
        writing.put(":");
        writing.show(&self.line);
        writing.put(": ");
        writing.put(sequence);
        writing.put(": ");
        writing.put(self.step.as_str());
        writing.put("\n  wanted  ");
        writing.put(self.wanted.as_str());
        writing.put("\n  came    ");
        writing.put(self.came.as_str());
        writing.put("\n");
        writing.end()
    }

    // What programs are told of it.
    fn object(&self, alloc: Global) -> Object {
        let mut object = Object::new(alloc);
        object.count("line", self.line);
        object.text("step", self.step.as_str());
        object.text("wanted", self.wanted.as_str());
        object.text("came", self.came.as_str());
        object
    }
}

impl Case<'_> {
    /// What programs are told of it, and of the step that failed, if one did.
    pub fn object(&self, alloc: Global, failure: Option<&Failure>) -> Object {
        let mut object = Object::new(alloc);
        object.text("file", self.file);
        object.text("name", self.name);
        object.flag("passed", failure.is_none());
        if let Some(failure) = failure {
            object.object("failure", failure.object(alloc));
        }
        object
    }
}
