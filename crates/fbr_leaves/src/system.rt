//! Systems that are read of texts.

use fb_faults::{Refusal, TypeFault};
use fb_flat::{Flat, flatten};
use fb_text::{Source, parse};
use fb_tree::FileTree;
use fb_types::Typed;
use fb_types_events::resolve;
use std::alloc::{AllocError, Global};

/// The source tree of an application's text, and the system that it is.
pub struct Resolved {
    source: Source,
    pub typed: Typed,
}

/// A system that was read of a text, once: its source tree, and its leaves.
pub struct System {
    source: Source,
    pub typed: Typed,
    /// Nothing where a resource has more connections than are followed.
    pub flat: Option<Flat>,
}

impl Resolved {
    /// The system alone.
    pub fn into_typed(self) -> Typed {
        let Resolved { source, typed } = self;
        source.let_go();
        typed
    }

    /// Lets it go.
    pub fn let_go(self) {
        self.into_typed().let_go();
    }

    // The same with these leaves.
    fn with(self, flat: Option<Flat>) -> System {
        let Resolved { source, typed } = self;
        System {
            source,
            typed,
            flat,
        }
    }

    /// The system with its leaves, or why it has none.
    pub fn flattened(self, alloc: Global) -> Result<System, TypeFault> {
        match flatten(alloc, &self.typed) {
            Ok(flat) => Ok(self.with(Some(flat))),
            Err(fault) => {
                self.let_go();
                Err(fault)
            }
        }
    }

    /// The system with its leaves, if it has them.
    pub fn flattened_again(self, alloc: Global) -> Result<System, AllocError> {
        match flatten(alloc, &self.typed) {
            Ok(flat) => Ok(self.with(Some(flat))),
            Err(TypeFault::OutOfMemory) => {
                self.let_go();
                Err(AllocError)
            }
            Err(_) => Ok(self.with(None)),
        }
    }
}

impl System {
    /// Its source tree.
    pub fn file(&self) -> &FileTree {
        self.source.tree()
    }

    /// Lets it go.
    pub fn let_go(self) {
        let System {
            source,
            typed,
            flat,
        } = self;
        source.let_go();
        typed.let_go();
        if let Some(flat) = flat {
            flat.let_go();
        }
    }
}

// The system of a source tree.
fn resolve_source(alloc: Global, source: Source) -> Result<Resolved, Refusal> {
    match resolve(alloc, &source) {
        Ok(typed) => Ok(Resolved { source, typed }),
        Err(fault) => {
            source.let_go();
            Err(Refusal::from(fault))
        }
    }
}

/// The system of an application's text, or why it is none.
pub fn system_in(alloc: Global, text: &str) -> Result<Resolved, Refusal> {
    match parse(alloc, text) {
        Ok(source) => resolve_source(alloc, source),
        Err(fault) => Err(Refusal::from(fault)),
    }
}

/// The system of a text that was read before, with its leaves, if it is one.
pub fn system_again(alloc: Global, text: &str) -> Result<Option<System>, AllocError> {
    match system_in(alloc, text) {
        Ok(resolved) => Ok(Some(resolved.flattened_again(alloc)?)),
        Err(Refusal::OutOfMemory) => Err(AllocError),
        Err(_) => Ok(None),
    }
}
