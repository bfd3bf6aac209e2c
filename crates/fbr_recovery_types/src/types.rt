//! The types that instances may have, by their interfaces alone.

use crate::charts::type_chart;
use crate::faces::face_of;
use fb_faults::TypeFault;
use fb_tree::{BlockTree, BodyTree, Name};
use fb_types_blocks::{Face, face};
use fb_types_events::event_blocks;
use fb_types_networks::{Body, Network};
use fbr_recovery_found::Found;
use fbr_recovery_text::Reading;
use indexmap::{IndexMap, IndexSet};
use std::alloc::{AllocError, Global};
use std::mem;
use std::rc::Rc;

/// The types of a text and the event blocks behind them, by their names: of two types of one name the first.
#[derive(Drop)]
pub struct Types {
    faces: Vec<Rc<Face>>,
    numbers: IndexMap<String, usize>,
    /// A network of nothing: which instances a composite has is not asked for.
    inside: Rc<Network>,
}

/// What an instance is, and the number of its type where it has one.
#[derive(Drop)]
pub struct Part {
    pub body: Body,
    pub number: Option<usize>,
}

// Whether a name is that of a service, which no declared type may have.
fn is_service(name: &str) -> bool {
    matches!(
        name,
        "INPUT" | "OUTPUT" | "PUBLISH" | "SUBSCRIBE" | "E_DELAY" | "E_CYCLE" | "E_RESTART"
    )
}

// Types the chart of a block type, where it has one.
fn type_own(
    alloc: Global,
    block: &BlockTree,
    face: &Face,
    names: &mut IndexSet<String>,
    found: &mut Found<'_>,
) -> Result<(), AllocError> {
    match &block.body {
        BodyTree::Chart(chart) => type_chart(alloc, block, chart, face, names, found),
        _ => Ok(()),
    }
}

// The interface of a block type, whose chart is typed where it has one.
fn typed_face(alloc: Global, block: &BlockTree, found: &mut Found<'_>) -> Result<Face, AllocError> {
    let mut names = IndexSet::new(alloc);
    let face = face_of(alloc, block, &mut names, found)?;
    type_own(alloc, block, &face, &mut names, found)?;
    Ok(face)
}

// Tells of the name of a block type, if there was one of its name before, or it is that of a service.
fn tell_name(name: &Name, is_new: bool, found: &mut Found<'_>) -> Result<(), AllocError> {
    if name.text.is_empty() {
        return Ok(());
    }
    if !is_new || is_service(name.text.as_str()) {
        found.typing(TypeFault::DuplicateName(name.at))?;
    }
    if !is_new && !found.types.contains(name.text.as_str()) {
        found.types.insert(name.text.clone()?)?;
    }
    Ok(())
}

impl Types {
    // None.
    fn none(alloc: Global) -> Result<Types, AllocError> {
        let inside = Network {
            instances: Vec::new(alloc),
            events: Vec::new(alloc),
            values: Vec::new(alloc),
        };
        Ok(Types {
            faces: Vec::new(alloc),
            numbers: IndexMap::new(alloc),
            inside: Rc::new(alloc, inside)?,
        })
    }

    // Adds a type, and tells whether there was none of its name.
    fn add(&mut self, alloc: Global, name: &String, face: Face) -> Result<bool, AllocError> {
        let number = self.faces.len();
        self.faces.push(Rc::new(alloc, face)?)?;
        if self.numbers.contains_key(name.as_str()) {
            return Ok(false);
        }
        self.numbers.insert(name.clone()?, number)?;
        Ok(true)
    }

    // Adds a type of a text, and types its chart where it has one.
    fn add_own(
        &mut self,
        alloc: Global,
        block: &BlockTree,
        found: &mut Found<'_>,
    ) -> Result<(), AllocError> {
        let face = typed_face(alloc, block, found)?;
        let is_new = self.add(alloc, &block.name.text, face)?;
        tell_name(&block.name, is_new, found)
    }

    // Adds the types of declarations.
    fn add_all(
        &mut self,
        alloc: Global,
        blocks: &[BlockTree],
        readings: &mut [Reading],
        found: &mut Found<'_>,
    ) -> Result<(), AllocError> {
        for (block, reading) in blocks.iter().zip(readings.iter_mut()) {
            let none = IndexSet::new(alloc);
            let before = found.begin(mem::replace(&mut reading.doubts, none));
            drop(before);
            found.is_nameless = reading.is_nameless;
            self.add_own(alloc, block, found)?;
            let none = IndexSet::new(alloc);
            reading.doubts = found.begin(none);
        }
        Ok(())
    }

    // Adds the event blocks that are there beforehand.
    fn add_given(&mut self, alloc: Global, blocks: &[BlockTree]) -> Result<(), AllocError> {
        for block in blocks {
            match face(alloc, block) {
                Ok(face) => {
                    self.add(alloc, &block.name.text, face)?;
                }
                Err(_) => return Err(AllocError),
            }
        }
        Ok(())
    }

    // Adds the event blocks of the library.
    fn add_library(&mut self, alloc: Global) -> Result<(), AllocError> {
        match event_blocks(alloc) {
            Ok(library) => {
                let added = self.add_given(alloc, &library.tree().blocks);
                library.let_go();
                added
            }
            Err(_) => Err(AllocError),
        }
    }

    /// The types of declarations, of which the charts are typed too.
    pub fn of(
        alloc: Global,
        blocks: &[BlockTree],
        readings: &mut [Reading],
        found: &mut Found<'_>,
    ) -> Result<Types, AllocError> {
        let mut types = Types::none(alloc)?;
        types.add_all(alloc, blocks, readings, found)?;
        types.add_library(alloc)?;
        Ok(types)
    }

    /// The number of the type of a name.
    pub fn number(&self, name: &str) -> Option<usize> {
        self.numbers.get(name).copied()
    }

    /// The interface of a type.
    pub fn face(&self, number: usize) -> Option<&Face> {
        match self.faces.get(number) {
            Some(face) => Some(&**face),
            None => None,
        }
    }

    /// What an instance of a type is; nothing where there is no such type.
    pub fn body(&self, number: usize) -> Result<Option<Body>, AllocError> {
        match self.faces.get(number) {
            Some(face) => {
                let inside = self.inside.clone()?;
                Ok(Some(Body::Composite(face.clone()?, inside)))
            }
            None => Ok(None),
        }
    }
}
