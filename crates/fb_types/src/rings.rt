//! Composites inside themselves: the search for a ring of types, each of which has an instance of the next.

ghost use Rattle.std.specs.Prelude.{◌≡◌, ◌≤◌, ◌+◌, ◌*◌, ◌↔◌, ◌++◌, ◌∷◌, [], true, None, Some, List, map, cond, string_bytes, vec_len, IfOk, OnOk};
ghost use Rattle.std.specs.List.{Any};
ghost use Rattle.std.specs.Option.{option_or, MatchOption};
ghost use Rattle.std.specs.Str.{bytes_eq};
ghost use Rattle.indexmap.specs.IndexMap.{index_map_len};
ghost use Rattle.fb_model.specs.Names.{Name};
ghost use Rattle.fb_model.specs.Declarations as decl;
ghost use Rattle.fb_tree.specs.Files as trees_of;
ghost use Rattle.fb_types.specs.Made.{tree_of, IsTable, IsNamed};
ghost use Rattle.fb_types.specs.Rings.{found_in, parts_of, IsStep, met_by, IsSearching, IsRingBelow, IsSearched};

use crate::make::is_on;
use crate::table::{Types, is_service};
use fb_tree::{BlockTree, BodyTree, InstanceTree};
use indexmap::IndexMap;
use std::alloc::{AllocError, Global};

/// Where the search goes on.
#[derive(Drop)]
pub(crate) enum Step<'a> {
    /// There is nothing more to search here.
    Passed,
    /// A ring closes; this is the offset of the type's name of an instance.
    Closing(usize),
    /// In a type that is met for the first time.
    Inside(&'a BlockTree),
}

// Whether a type of this name is on a path or at its end.
fn is_on_or_at(path: &[&BlockTree], top: &BlockTree, name: &str) -> bool
    ensures { result ≡ true ↔ Any (λ b. b.name.text ≡ name.now) (map tree_of path.now ++ trees_of.block_of top.now ∷ []) }
{
    is_on(path, name) || top.name.text.as_str() == name
}

// Where the search goes on from an instance.
fn look_at<'a>(
    left: &mut Types<'a>,
    path: &[&BlockTree],
    top: &BlockTree,
    instance: &InstanceTree,
) -> Step<'a>
    ensures step { IsStep (found_in left.old) (found_in left.new) (map tree_of path.now ++ trees_of.block_of top.now ∷ []) (trees_of.instance_of instance.now ∷ []) result }
    ensures falls { index_map_len left.new + met_by result ≡ index_map_len left.old }
{
    let name = instance.of_type.text.as_str();
    if is_service(name) {
        return Step::Passed;
    }
    if is_on_or_at(path, top, name) {
        return Step::Closing(instance.of_type.at);
    }
    match left.swap_remove(name) {
        Some(block) => Step::Inside(block),
        None => Step::Passed,
    }
}

// Where the search goes on from a type, which stands behind those on the path.
fn look_into<'a>(left: &mut Types<'a>, path: &[&BlockTree], top: &BlockTree) -> Step<'a>
    ensures step { IsStep (found_in left.old) (found_in left.new) (map tree_of path.now ++ trees_of.block_of top.now ∷ []) (parts_of (trees_of.block_of top.now).body) result }
    ensures falls { index_map_len left.new + met_by result ≡ index_map_len left.old }
{
    match &top.body {
        BodyTree::Chart(_) => Step::Passed,
        BodyTree::Network(network) => look_among(left, path, top, &network.instances),
    }
}

// Where the search goes on from instances.
fn look_among<'a>(
    left: &mut Types<'a>,
    path: &[&BlockTree],
    top: &BlockTree,
    instances: &[InstanceTree],
) -> Step<'a>
    ensures step { IsStep (found_in left.old) (found_in left.new) (map tree_of path.now ++ trees_of.block_of top.now ∷ []) (map trees_of.instance_of instances.now) result }
    ensures falls { index_map_len left.new + met_by result ≡ index_map_len left.old }
{
    for instance in instances {
        match look_at(left, path, top, instance) {
            Step::Passed => {}
            Step::Closing(at) => return Step::Closing(at),
            Step::Inside(block) => return Step::Inside(block),
        }
    }
    Step::Passed
}

// Searches on from the type that was taken from the end of a path: the offset of a ring, where one closes there.
fn advance<'a>(
    left: &mut Types<'a>,
    path: &mut Vec<&'a BlockTree>,
    top: &'a BlockTree,
) -> Result<Option<usize>, AllocError>
    ensures search { (bs : List decl.BlockTree) (b : decl.BlockTree) → IsSearching bs b (found_in left.old) (map tree_of path.old.items ++ trees_of.block_of top.now ∷ []) → IfOk result (λ o. MatchOption o (IsSearching bs b (found_in left.new) (map tree_of path.new.items)) (λ at. IsRingBelow bs b at)) }
    ensures falls { IfOk result (λ o. o ≡ None → 3 * index_map_len left.new + vec_len path.new ≤ 3 * index_map_len left.old + vec_len path.old) }
{
    match look_into(left, path, top) {
        Step::Passed => Ok(None),
        Step::Closing(at) => Ok(Some(at)),
        Step::Inside(inner) => {
            path.push(top)?;
            path.push(inner)?;
            Ok(None)
        }
    }
}

// Adds a type of a name, unless there is one.
fn add_named<'a>(
    types: &mut Types<'a>,
    name: &String,
    block: &'a BlockTree,
) -> Result<(), AllocError>
    ensures { OnOk result ((x : Name) → found_in types.new x ≡ option_or (found_in types.old x) (cond (bytes_eq x (string_bytes name.now)) (Some (trees_of.block_of block.now)) None)) }
{
    if !types.contains_key(name.as_str()) {
        types.insert(name.clone()?, block)?;
    }
    Ok(())
}

// A table of the same types.
fn copied<'a>(alloc: Global, types: &Types<'a>) -> Result<Types<'a>, AllocError>
    ensures { IfOk result (λ t. (x : Name) → found_in t x ≡ found_in types.now x) }
{
    let mut copy = IndexMap::new(alloc);
    for at in 0..types.len() {
        let Some((name, block)) = types.get_index(at) else {
            unreachable!()
        };
        add_named(&mut copy, name, *block)?;
    }
    Ok(copy)
}

// The offset of the ring that closes where the search goes on below a type, among those that are left.
fn searched<'a>(
    alloc: Global,
    left: &mut Types<'a>,
    block: &'a BlockTree,
) -> Result<Option<usize>, AllocError>
    ensures { (bs : List decl.BlockTree) → IsSearching bs (trees_of.block_of block.now) (found_in left.old) (trees_of.block_of block.now ∷ []) → IfOk result (IsSearched bs (trees_of.block_of block.now)) }
{
    let mut path = Vec::new(alloc);
    path.push(block)?;
    while let Some(top) = path.pop() {
        if let Some(at) = advance(left, &mut path, top)? {
            return Ok(Some(at));
        }
    }
    Ok(None)
}

/// The offset of a ring of composites to which a type leads: that of the type's name in the instance by which it closes.
///
/// Types are searched depth first in text order, each once. The path is on the heap, however long it is.
pub(crate) fn ring<'a>(
    alloc: Global,
    types: &Types<'a>,
    block: &'a BlockTree,
) -> Result<Option<usize>, AllocError>
    ensures { (bs : List decl.BlockTree) → IsTable bs types.now → IsNamed bs (trees_of.block_of block.now) → IfOk result (IsSearched bs (trees_of.block_of block.now)) }
{
    let mut left = copied(alloc, types)?;
    left.swap_remove(block.name.text.as_str());
    searched(alloc, &mut left, block)
}
