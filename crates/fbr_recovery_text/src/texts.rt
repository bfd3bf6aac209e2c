//! Reading of whole texts, declaration by declaration.

use crate::blocks::rank_of;
use crate::reader::Reader;
use fb_lex::Token;
use fb_read::read_name;
use fb_tree::{BlockTree, FileTree, Name, SystemTree};
use fb_words::Mark;
use fbr_recovery_found::{Found, begins};
use indexmap::IndexSet;
use std::alloc::{AllocError, Global};

/// What was read of the declaration of a block type: the names in doubt in it, and whether all of it was read.
#[derive(Drop)]
pub struct Reading {
    pub doubts: IndexSet<String>,
    /// Whether something is declared whose name could not be read.
    pub is_nameless: bool,
    pub is_whole: bool,
}

/// What was read of a text: its tree as far as there is one, and of each block type, and of the system, what was read.
#[derive(Drop)]
pub struct Text {
    pub file: FileTree,
    pub blocks: Vec<Reading>,
    pub system: Reading,
}

// What is read of a text.
#[derive(Drop)]
struct Parts {
    trees: Vec<BlockTree>,
    blocks: Vec<Reading>,
    system: Option<(SystemTree, Reading)>,
}

// The number of the first token from a number on that begins a declaration.
fn start_from(tokens: &[Token], from: usize) -> usize {
    for index in from..tokens.len() {
        if begins(tokens, index) {
            return index;
        }
    }
    tokens.len()
}

// What was read of a declaration.
fn reading_of(is_whole: bool, found: &mut Found<'_>) -> Reading {
    let is_nameless = found.is_nameless;
    let none = IndexSet::new(found.alloc);
    Reading {
        doubts: found.begin(none),
        is_nameless,
        is_whole,
    }
}

impl Parts {
    // Reads a block type.
    fn read_block(
        &mut self,
        reader: &mut Reader<'_>,
        found: &mut Found<'_>,
    ) -> Result<(), AllocError> {
        if self.system.is_some() {
            reader.tell(reader.at, reader.at, 2, found)?;
        }
        let from = reader.at;
        let (tree, is_whole) = reader.block(found)?;
        if tree.name.text.is_empty() {
            found.doubt_types(from, reader.end)?;
        }
        self.trees.push(tree)?;
        self.blocks.push(reading_of(is_whole, found))?;
        Ok(())
    }

    // Reads the system.
    fn read_system(
        &mut self,
        reader: &mut Reader<'_>,
        found: &mut Found<'_>,
    ) -> Result<(), AllocError> {
        let begun = found.places.len();
        let tree = reader.system(found)?;
        let is_whole = found.places.len() == begun;
        self.system = Some((tree, reading_of(is_whole, found)));
        Ok(())
    }

    // Reads a block type whose first word is none, by the name before its parts.
    fn read_parts(
        &mut self,
        reader: &mut Reader<'_>,
        found: &mut Found<'_>,
    ) -> Result<(), AllocError> {
        let before = reader.between(reader.at.saturating_sub(1), reader.at);
        if let Ok((name, _)) = read_name(before) {
            let tree = reader.block_named(name, found)?;
            self.trees.push(tree)?;
            self.blocks.push(reading_of(false, found))?;
        } else {
            reader.pass();
        }
        Ok(())
    }

    // Tells what is between declarations, and reads those in it whose first word is none.
    fn read_stray(
        &mut self,
        reader: &mut Reader<'_>,
        found: &mut Found<'_>,
    ) -> Result<(), AllocError> {
        reader.tell_here(found)?;
        for _ in reader.at..reader.end {
            if reader.at >= reader.end {
                break;
            }
            let from = reader.at;
            reader.is_lost = true;
            reader.skip_to_part(found)?;
            let between = reading_of(false, found);
            drop(between);
            // A name before the parts of a block type is its own.
            let is_block = match reader.next() {
                Some(mark) => rank_of(mark).is_some(),
                None => false,
            };
            let skipped = reader.at.saturating_sub(if is_block { 1 } else { 0 });
            found.doubt_types(from, skipped)?;
            match reader.next() {
                Some(Mark::Device) if self.system.is_none() => self.read_system(reader, found)?,
                _ if is_block => self.read_parts(reader, found)?,
                _ => reader.pass(),
            }
        }
        Ok(())
    }

    // Reads a declaration, and what is between it and the next one.
    fn read(&mut self, reader: &mut Reader<'_>, found: &mut Found<'_>) -> Result<(), AllocError> {
        if reader.next() == Some(Mark::FunctionBlock) {
            self.read_block(reader, found)?;
        } else if self.system.is_none() {
            self.read_system(reader, found)?;
        }
        if reader.at < reader.end {
            self.read_stray(reader, found)?;
        }
        Ok(())
    }

    // What was read, with a system of no devices where there is none.
    fn text(self, alloc: Global, length: usize) -> Text {
        let Parts {
            trees,
            blocks,
            system,
        } = self;
        let (system, reading) = match system {
            Some(system) => system,
            None => {
                let name = Name {
                    text: String::new(alloc),
                    at: length,
                };
                let system = SystemTree {
                    name,
                    devices: Vec::new(alloc),
                };
                let reading = Reading {
                    doubts: IndexSet::new(alloc),
                    is_nameless: false,
                    is_whole: false,
                };
                (system, reading)
            }
        };
        Text {
            file: FileTree {
                blocks: trees,
                system,
            },
            blocks,
            system: reading,
        }
    }
}

/// Reads a text of these tokens and so many bytes. Faults of its form are added.
pub fn read_text(
    alloc: Global,
    tokens: &[Token],
    length: usize,
    found: &mut Found<'_>,
) -> Result<Text, AllocError> {
    let mut parts = Parts {
        trees: Vec::new(alloc),
        blocks: Vec::new(alloc),
        system: None,
    };
    let first = start_from(tokens, 0);
    let mut reader = Reader {
        alloc,
        tokens,
        at: 0,
        end: first,
        length,
        is_lost: false,
    };
    if first > 0 {
        parts.read_stray(&mut reader, found)?;
    }
    for _ in 0..tokens.len() {
        if reader.end >= tokens.len() {
            break;
        }
        reader.at = reader.end;
        reader.end = start_from(tokens, reader.at.saturating_add(1));
        reader.is_lost = false;
        parts.read(&mut reader, found)?;
    }
    if parts.system.is_none() {
        reader.at = tokens.len();
        reader.end = tokens.len();
        reader.tell_here(found)?;
    }
    Ok(parts.text(alloc, length))
}
