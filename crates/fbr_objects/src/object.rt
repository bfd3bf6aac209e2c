//! JSON that is put together.

use fbr_places::Writing;
use serde_json::{Map, Value, push, put};
use std::alloc::{AllocError, Global};
use std::io;
use std::io::{ErrorKind, Write};

/// An object that is put together. It is handed out whole or not at all: where memory runs out on the way, its end tells it, so that no step has to.
#[derive(Drop)]
pub struct Object {
    alloc: Global,
    members: Map<String, Value>,
    is_whole: bool,
}

impl Object {
    /// Nothing so far.
    pub fn new(alloc: Global) -> Object {
        Object {
            alloc,
            members: Map::new(alloc),
            is_whole: true,
        }
    }

    // Adds a member.
    fn put(&mut self, name: &str, value: Value) {
        if put(&mut self.members, self.alloc, name, value).is_err() {
            self.is_whole = false;
        }
    }

    /// Adds a text.
    pub fn text(&mut self, name: &str, text: &str) {
        match Value::try_from_str(self.alloc, text) {
            Ok(value) => self.put(name, value),
            Err(_) => self.is_whole = false,
        }
    }

    /// Adds a text that was put together.
    pub fn written(&mut self, name: &str, writing: Writing) {
        match writing.text() {
            Ok(text) => self.put(name, Value::String(text)),
            Err(_) => self.is_whole = false,
        }
    }

    /// Adds a number.
    pub fn number(&mut self, name: &str, number: u64) {
        self.put(name, Value::from(number));
    }

    /// Adds a number, if there is one.
    pub fn maybe_number(&mut self, name: &str, number: Option<u64>) {
        if let Some(number) = number {
            self.number(name, number);
        }
    }

    /// Adds the number of a character, a line or a row.
    pub fn count(&mut self, name: &str, count: usize) {
        self.put(name, Value::from(count));
    }

    /// Adds a number that may be below 0.
    pub fn signed(&mut self, name: &str, number: i64) {
        self.put(name, Value::from(number));
    }

    /// Adds whether something is so.
    pub fn flag(&mut self, name: &str, flag: bool) {
        self.put(name, Value::Bool(flag));
    }

    /// Adds an object.
    pub fn object(&mut self, name: &str, object: Object) {
        match object.value() {
            Some(value) => self.put(name, value),
            None => self.is_whole = false,
        }
    }

    /// Adds a list.
    pub fn list(&mut self, name: &str, list: List) {
        match list.value() {
            Some(value) => self.put(name, value),
            None => self.is_whole = false,
        }
    }

    // The object, if memory held all of it.
    fn value(self) -> Option<Value> {
        let Object {
            alloc: _,
            members,
            is_whole,
        } = self;
        if is_whole {
            Some(Value::Object(members))
        } else {
            None
        }
    }

    /// Writes its text on one line. Where memory did not hold all of it, nothing is written, and the error says so.
    pub fn write<W: Write>(self, out: &mut W) -> io::Result<()> {
        match self.end() {
            Ok(text) => out.write_all(text.as_bytes()),
            Err(_) => Err(io::Error::from(ErrorKind::OutOfMemory)),
        }
    }

    /// Its text on one line, with a line feed behind it, if memory held all of it.
    pub fn end(self) -> Result<String, AllocError> {
        let alloc = self.alloc;
        match self.value() {
            Some(value) => {
                let mut text = value.to_string(alloc)?;
                text.push_str("\n")?;
                Ok(text)
            }
            None => Err(AllocError),
        }
    }
}

/// A list that is put together, as an object is.
#[derive(Drop)]
pub struct List {
    alloc: Global,
    items: Vec<Value>,
    is_whole: bool,
}

impl List {
    /// Nothing so far.
    pub fn new(alloc: Global) -> List {
        List {
            alloc,
            items: Vec::new(alloc),
            is_whole: true,
        }
    }

    // Adds an item.
    fn push(&mut self, value: Value) {
        if push(&mut self.items, value).is_err() {
            self.is_whole = false;
        }
    }

    /// Adds a text.
    pub fn text(&mut self, text: &str) {
        match Value::try_from_str(self.alloc, text) {
            Ok(value) => self.push(value),
            Err(_) => self.is_whole = false,
        }
    }

    /// Adds a number.
    pub fn number(&mut self, number: u64) {
        self.push(Value::from(number));
    }

    /// Adds a number that may be below 0.
    pub fn signed(&mut self, number: i64) {
        self.push(Value::from(number));
    }

    /// Adds an object.
    pub fn object(&mut self, object: Object) {
        match object.value() {
            Some(value) => self.push(value),
            None => self.is_whole = false,
        }
    }

    // The list, if memory held all of it.
    fn value(self) -> Option<Value> {
        let List {
            alloc: _,
            items,
            is_whole,
        } = self;
        if is_whole {
            Some(Value::Array(items))
        } else {
            None
        }
    }
}
