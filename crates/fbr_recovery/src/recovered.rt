//! All faults of a text.

use crate::networks::Beside;
use crate::numbers::tell_numbers;
use crate::rings::tell_rings;
use fb_faults::TypeFault;
use fb_lex::Token;
use fb_tree::{BlockTree, BodyTree, DeviceTree, FileTree, SystemTree};
use fbr_recovery_found::{Found, Lexed, MOST, Mistake, mistake_of, read_tokens};
use fbr_recovery_text::{Reading, Text, read_text};
use fbr_recovery_types::{Types, declare};
use indexmap::IndexSet;
use std::alloc::{AllocError, Global};

// The most devices of a system, and the most resources of a device.
const DEVICES: usize = 16;

/// What there is of a text, whatever is at fault in it.
#[derive(Drop)]
pub struct Recovered {
    /// Its tokens.
    pub tokens: Vec<Token>,
    /// Its tree, without what could not be read.
    pub file: FileTree,
    /// A text of as many bytes without faults of characters, where it has any.
    pub mended: Option<String>,
    /// Its faults in the order of the text, 100 at most.
    pub mistakes: Vec<Mistake>,
    /// Whether there are more.
    pub has_more: bool,
}

// Tells of the names of a device and of its resources, and wires these.
fn tell_device(
    beside: Beside<'_>,
    device: &DeviceTree,
    is_whole: bool,
    found: &mut Found<'_>,
) -> Result<(), AllocError> {
    if let Some(resource) = device.resources.get(DEVICES) {
        found.typing(TypeFault::Limit(resource.name.at))?;
    }
    let mut names = IndexSet::new(beside.alloc);
    for resource in &device.resources {
        declare(&mut names, &resource.name, found)?;
        beside.wire(&resource.network, is_whole, found)?;
    }
    Ok(())
}

// Tells of a system.
fn tell_system(
    beside: Beside<'_>,
    system: &SystemTree,
    is_whole: bool,
    found: &mut Found<'_>,
) -> Result<(), AllocError> {
    if let Some(device) = system.devices.get(DEVICES) {
        found.typing(TypeFault::Limit(device.name.at))?;
    }
    let mut names = IndexSet::new(beside.alloc);
    for device in &system.devices {
        declare(&mut names, &device.name, found)?;
        tell_device(beside, device, is_whole, found)?;
    }
    Ok(())
}

// Begins a declaration, of which this was read.
fn begin(reading: &Reading, found: &mut Found<'_>) -> Result<(), AllocError> {
    let mut doubts = IndexSet::new(found.alloc);
    for name in &reading.doubts {
        doubts.insert(name.clone()?)?;
    }
    let before = found.begin(doubts);
    drop(before);
    found.is_nameless = reading.is_nameless;
    Ok(())
}

// Wires the composites of a text.
fn tell_composites(
    alloc: Global,
    blocks: &[BlockTree],
    types: &Types,
    readings: &[Reading],
    found: &mut Found<'_>,
) -> Result<(), AllocError> {
    for (number, (block, reading)) in blocks.iter().zip(readings).enumerate() {
        if let BodyTree::Network(network) = &block.body {
            begin(reading, found)?;
            let beside = Beside {
                alloc,
                types,
                readings,
                face: types.face(number),
            };
            beside.wire(network, reading.is_whole, found)?;
        }
    }
    Ok(())
}

// Adds the faults of what has these types.
fn tell_with<'x>(
    alloc: Global,
    text: &'x Text,
    types: &'x Types,
    found: &mut Found<'_>,
) -> Result<(), AllocError> {
    let blocks = &text.file.blocks;
    let system = &text.file.system;
    tell_composites(alloc, blocks, types, &text.blocks, found)?;
    let before = found.begin(IndexSet::new(alloc));
    drop(before);
    tell_rings(alloc, blocks, types, found)?;
    begin(&text.system, found)?;
    let beside = Beside {
        alloc,
        types,
        readings: &text.blocks,
        face: None,
    };
    tell_system(beside, system, text.system.is_whole, found)?;
    tell_numbers(alloc, blocks, types, &system.devices, found)
}

// Adds the faults of types of what was read.
fn tell_types(alloc: Global, text: &mut Text, found: &mut Found<'_>) -> Result<(), AllocError> {
    let types = Types::of(alloc, &text.file.blocks, &mut text.blocks, found)?;
    tell_with(alloc, text, &types, found)
}

// Adds all faults of the tokens of a text of so many bytes, and gives its tree.
fn read_and_tell(
    alloc: Global,
    tokens: &[Token],
    length: usize,
    found: &mut Found<'_>,
) -> Result<FileTree, AllocError> {
    let mut text = read_text(alloc, tokens, length, found)?;
    let told = tell_types(alloc, &mut text, found);
    let Text {
        file,
        blocks,
        system,
    } = text;
    drop(blocks);
    drop(system);
    match told {
        Ok(()) => Ok(file),
        Err(_) => {
            file.let_go();
            Err(AllocError)
        }
    }
}

// The same, with the places of these faults behind others.
fn tell_all(
    alloc: Global,
    tokens: &[Token],
    length: usize,
    broken: &[usize],
    places: &mut Vec<(usize, u8)>,
) -> Result<FileTree, AllocError> {
    let mut found = Found {
        alloc,
        tokens,
        broken,
        places: Vec::new(alloc),
        doubts: IndexSet::new(alloc),
        is_nameless: false,
        told: IndexSet::new(alloc),
        types: IndexSet::new(alloc),
    };
    let file = read_and_tell(alloc, tokens, length, &mut found)?;
    match places.append(&mut found.places) {
        Ok(()) => Ok(file),
        Err(_) => {
            file.let_go();
            Err(AllocError)
        }
    }
}

// Faults in the order of the text, one at a place, and whether there are more than are told. At the place of the first one that is known there is no other.
fn in_order(
    alloc: Global,
    places: &mut Vec<(usize, u8)>,
    first: (u8, usize),
) -> Result<(Vec<Mistake>, bool), AllocError> {
    places.push((first.1, first.0))?;
    places.sort()?;
    let mut mistakes = Vec::new(alloc);
    let mut last = None;
    for (at, code) in places.iter() {
        if last == Some(*at) || (*at == first.1 && *code != first.0) {
            continue;
        }
        if mistakes.len() >= MOST {
            return Ok((mistakes, true));
        }
        last = Some(*at);
        if let Some(mistake) = mistake_of(*code, *at) {
            mistakes.push(mistake)?;
        }
    }
    Ok((mistakes, false))
}

// The tree of a text that has these tokens, its faults in their order, and whether there are more than are told.
fn told_of(
    alloc: Global,
    read: &Lexed,
    length: usize,
    places: &mut Vec<(usize, u8)>,
    first: (u8, usize),
) -> Result<(FileTree, Vec<Mistake>, bool), AllocError> {
    let file = tell_all(alloc, &read.tokens, length, &read.broken, places)?;
    match in_order(alloc, places, first) {
        Ok((mistakes, has_more)) => Ok((file, mistakes, has_more)),
        Err(_) => {
            file.let_go();
            Err(AllocError)
        }
    }
}

// What there is of a text that was lexed so.
fn recover_lexed(
    alloc: Global,
    read: Lexed,
    length: usize,
    places: &mut Vec<(usize, u8)>,
    first: (u8, usize),
) -> Result<Recovered, AllocError> {
    let (file, mistakes, has_more) = told_of(alloc, &read, length, places, first)?;
    let Lexed {
        tokens,
        mended,
        broken,
    } = read;
    drop(broken);
    Ok(Recovered {
        tokens,
        file,
        mended,
        mistakes,
        has_more,
    })
}

/// All faults of a text, in its order, and what there is of it beside them; nothing where it is too long. The number and the place of one are known, which is among them.
///
/// Each part of the text is read and typed a fixed number of times, however many faults there are: only statements at fault are typed again for each IF, CASE and FOR around
/// them, of which there are 32 at most.
pub fn recover(
    alloc: Global,
    text: &str,
    first: (u8, usize),
) -> Result<Option<Recovered>, AllocError> {
    let mut places = Vec::new(alloc);
    match read_tokens(alloc, text, &mut places)? {
        Some(read) => {
            let recovered = recover_lexed(alloc, read, text.len(), &mut places, first)?;
            Ok(Some(recovered))
        }
        None => Ok(None),
    }
}
