//! Composites that contain themselves: through which types.

use fb_tree::{BlockTree, BodyTree, FileTree, InstanceTree};
use fbr_advice::advice::Advice;
use fbr_places::{Named, block_around, instance_around, network_around, tell_where};
use indexmap::IndexMap;
use std::alloc::{AllocError, Global};

// The instances of a composite; none of a basic block.
fn instances(block: &BlockTree) -> &[InstanceTree] {
    match &block.body {
        BodyTree::Network(network) => network.instances.as_slice(),
        BodyTree::Chart(_) => &[],
    }
}

// The numbers of types by their names.
fn numbers_of(alloc: Global, file: &FileTree) -> Result<IndexMap<String, usize>, AllocError> {
    let mut numbers = IndexMap::new(alloc);
    for (number, block) in file.blocks.iter().enumerate() {
        numbers.insert(block.name.text.clone()?, number)?;
    }
    Ok(numbers)
}

// The types that are reached from one, in the order in which they are: the number of each, and the place here of the type that has an instance of it.
fn reached(
    alloc: Global,
    file: &FileTree,
    first: usize,
) -> Result<Vec<(usize, usize)>, AllocError> {
    let numbers = numbers_of(alloc, file)?;
    let mut seen = Vec::new(alloc);
    for _ in &file.blocks {
        seen.push(false)?;
    }
    let mut list = Vec::new(alloc);
    list.push((first, 0))?;
    for place in 0..file.blocks.len() {
        let Some((number, _)) = list.get(place).copied() else {
            return Ok(list);
        };
        let Some(block) = file.blocks.get(number) else {
            return Ok(list);
        };
        for instance in instances(block) {
            if let Some(next) = numbers.get(instance.of_type.text.as_str()).copied() {
                if let Some(mark) = seen.get_mut(next) {
                    if !*mark {
                        *mark = true;
                        list.push((next, place))?;
                    }
                }
            }
        }
    }
    Ok(list)
}

// The numbers of the types on the way from the first of a list to one of this name, the last one first.
fn way_to(
    alloc: Global,
    file: &FileTree,
    list: &[(usize, usize)],
    name: &str,
) -> Result<Vec<usize>, AllocError> {
    let mut way = Vec::new(alloc);
    let mut found = None;
    for (place, (number, _)) in list.iter().enumerate() {
        if let Some(block) = file.blocks.get(*number) {
            if found.is_none() && block.name.text.as_str() == name {
                found = Some(place);
            }
        }
    }
    let Some(last) = found else {
        return Ok(way);
    };
    let mut place = last;
    for _ in 0..list.len() {
        let Some((number, from)) = list.get(place).copied() else {
            return Ok(way);
        };
        way.push(number)?;
        if place == 0 {
            return Ok(way);
        }
        place = from;
    }
    Ok(way)
}

// Writes the types of a way, from its last number on, and behind them the first one again.
fn put_way(file: &FileTree, way: &[usize], advice: &mut Advice) {
    let mut first = "";
    for step in 0..way.len() {
        let index = way.len().saturating_sub(step).saturating_sub(1);
        let block = match way.get(index) {
            Some(number) => file.blocks.get(*number),
            None => None,
        };
        if let Some(block) = block {
            if step == 0 {
                first = block.name.text.as_str();
            }
            advice.said.put(block.name.text.as_str());
            advice.said.put(" > ");
        }
    }
    advice.said.put(first);
}

/// Writes through which types the composite contains itself of which an instance is declared at a byte.
pub fn tell_circle(
    alloc: Global,
    file: &FileTree,
    app: Named<'_>,
    at: usize,
    advice: &mut Advice,
) -> Result<(), AllocError> {
    let (Some(block), Some(network)) = (block_around(file, at), network_around(file, at)) else {
        return Ok(());
    };
    let Some(instance) = instance_around(network, at) else {
        return Ok(());
    };
    let name = instance.of_type.text.as_str();
    advice.said.put(name);
    if name == block.name.text.as_str() {
        advice.said.put(" has an instance of itself, ");
        advice.said.put(instance.name.text.as_str());
        advice.end("take that instance out, or make it one of another type", "");
        return Ok(());
    }
    advice.said.put(" contains itself");
    for (number, each) in file.blocks.iter().enumerate() {
        if each.name.text.as_str() == name {
            let list = reached(alloc, file, number)?;
            let way = way_to(alloc, file, &list, block.name.text.as_str())?;
            advice.said.put(": ");
            put_way(file, &way, advice);
            advice.said.put("; ");
            advice.said.put(name);
            advice.said.put(" is declared at ");
            tell_where(app, each.name.at, &mut advice.said);
        }
    }
    advice.end(
        "take one of these instances out, or make it one of another type",
        "",
    );
    Ok(())
}
