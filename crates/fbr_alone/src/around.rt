//! Block types of a text, and the system around each.

use crate::arguments::{EventInput, event_inputs};
use crate::system::Subject;
use fb_lex::{Kind, Token};
use fb_tree::{BlockTree, FileTree};
use fb_words::Mark;
use fbr_places::{Writing, port_in, tokens_of, tree_in};
use std::alloc::{AllocError, Global};

/// The name of the system, its device and its resource.
pub(crate) const HOME: &str = "ALONE";
/// What stands before the names of instances in the paths of the system.
pub const BEFORE_PATHS: &str = "ALONE.ALONE.";
// A block type has fewer names on its face.
const MOST_NAMES: usize = 512;

/// A block type alone.
#[derive(Drop)]
pub struct Alone {
    /// Its name, in upper case.
    pub name: String,
    /// The name of its one instance: its own, unless an event or a variable has that.
    pub instance: String,
    pub events: Vec<EventInput>,
    /// The types of its text, and the system around it.
    pub text: String,
}

impl Alone {
    /// The name of a block within the one instance of the type, by the path of the block in its resource. The instance itself has the empty name.
    pub fn within<'p>(&self, path: &'p str) -> Option<&'p str> {
        let rest = path.strip_prefix(self.instance.as_str())?;
        if rest.is_empty() {
            Some(rest)
        } else {
            rest.strip_prefix('.')
        }
    }
}

/// What a name is of block types.
#[derive(Drop)]
pub enum Found {
    Block(Alone),
    /// No block type of the text has this name: the names of those that it has.
    Unknown(Vec<String>),
}

// The name of a block type, or a longer one that nothing on its face has.
fn free_name(alloc: Global, block: &BlockTree) -> Result<String, AllocError> {
    let mut name = String::from_str(alloc, block.name.text.as_str())?;
    for _ in 0..MOST_NAMES {
        if port_in(block, name.as_str()).is_none() {
            break;
        }
        name.push_str("_")?;
    }
    Ok(name)
}

// A block type alone, of which the types of its text are these bytes.
fn around(alloc: Global, types: &str, block: &BlockTree) -> Result<Alone, AllocError> {
    let instance = free_name(alloc, block)?;
    let events = event_inputs(alloc, block)?;
    let mut writing = Writing::new(alloc);
    writing.put(types);
    let subject = Subject {
        block,
        instance: instance.as_str(),
        events: &events,
    };
    subject.put(&mut writing);
    let Ok(text) = String::from_utf8(writing.end()?) else {
        return Err(AllocError);
    };
    Ok(Alone {
        name: String::from_str(alloc, block.name.text.as_str())?,
        instance,
        events,
        text,
    })
}

// The text of the types: what stands before the system.
fn types_of<'a>(app: &'a str, tokens: &[Token]) -> &'a str {
    for token in tokens {
        if let Kind::Mark(Mark::System) = &token.kind {
            return app.get(..token.start).unwrap_or("");
        }
    }
    app
}

// What a name is of the block types of a tree.
fn find(alloc: Global, types: &str, tree: &FileTree, name: &str) -> Result<Found, AllocError> {
    let mut names = Vec::new(alloc);
    for block in &tree.blocks {
        if block.name.text.as_str() == name {
            return Ok(Found::Block(around(alloc, types, block)?));
        }
        names.push(String::from_str(alloc, block.name.text.as_str())?)?;
    }
    Ok(Found::Unknown(names))
}

/// The block type of an application's text that has a name in upper case, alone.
pub fn alone_in(alloc: Global, app: &str, name: &str) -> Result<Found, AllocError> {
    let Some(tokens) = tokens_of(alloc, app)? else {
        return Ok(Found::Unknown(Vec::new(alloc)));
    };
    match tree_in(alloc, &tokens, app.len())? {
        Some(tree) => {
            let found = find(alloc, types_of(app, &tokens), &tree, name);
            tree.let_go();
            found
        }
        None => Ok(Found::Unknown(Vec::new(alloc))),
    }
}
