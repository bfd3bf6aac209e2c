//! Declared types: basic blocks and composites, and the instances in these.

ghost use Rattle.std.specs.Prelude.{◌≡◌, ◌≤◌, ◌↔◌, ◌++◌, ◌∷◌, [], List, ℕ, suc, max, map, true, false, OnOk, IfOk, IfErr, Some};
ghost use Rattle.std.specs.List.{Any};
ghost use Rattle.fb_model.specs.Declarations as decl;
ghost use Rattle.fb_model.specs.System as book;
ghost use Rattle.fb_model.specs.BlockTyping.{Declared, IsFace, face_names};
ghost use Rattle.fb_model.specs.Typing.{AreDistinct};
ghost use Rattle.fb_model.specs.NetworkTyping.{type_named};
ghost use Rattle.fb_tree.specs.Files as trees_of;
ghost use Rattle.fb_types_blocks.specs.Views.{face_of};
ghost use Rattle.fb_model.specs.BlockFaults.{IsBasicFault};
ghost use denote.Ref.{Bor};
ghost use Rattle.fb_tree.specs.declared.tree.BlockTree.{BlockTree as Tree};
ghost use Rattle.fb_types.specs.declared.made.Unmade.TheVariants as u;
ghost use Rattle.fb_model.specs.Nesting.{IsOf};
ghost use Rattle.fb_model.specs.SourceFaults.{IsTypeFault};
ghost use Rattle.fb_types.specs.Made.{tree_of, IsTable, IsMemo, IsNamed, IsOpen, IsComposite, IsTyped, IsTypedBody, IsPath, IsPart, AreParts, IsUnmade, IsHalted, HaltsAt, LeadsTo};

use crate::made::{Made, Memo, Shape, Unmade, body, recall, remember};
use crate::table::{Types, type_of};
use fb_faults::TypeFault;
use fb_tree::{BlockTree, BodyTree, ChartTree, InstanceTree, NetworkTree};
use fb_types_blocks::{Face, basic, face};
use fb_types_networks::{Body, Instance, plain, served, wire};
use std::alloc::{AllocError, Global};
use std::rc::Rc;

// Why a composite is not made, where this is so of a type in it: a chain that is too long starts at the composite.
fn outer<'a>(unmade: Unmade<'a>, source: &'a BlockTree) -> Unmade<'a>
    ensures fault { (f : TypeFault) → unmade.entry ≡ u.Fault f → result ≡ u.Fault f }
    ensures deep { (x : Bor Tree) → unmade.entry ≡ u.TooDeep x → result ≡ u.TooDeep source.entry }
{
    match unmade {
        Unmade::Fault(fault) => Unmade::Fault(fault),
        Unmade::TooDeep(_) => Unmade::TooDeep(source),
    }
}

// A basic block.
fn basic_type(alloc: Global, source: &BlockTree, chart: &ChartTree) -> Result<Made, TypeFault>
    ensures bounded { IfOk result (λ m. m.deep ≡ 0) }
    ensures made { (bs : List decl.BlockTree) (d : ℕ) → (trees_of.block_of source.now).body ≡ decl.Chart (trees_of.chart_of chart.now) → IfOk result (IsTyped bs d (trees_of.block_of source.now)) }
    ensures refused { IfErr result (IsBasicFault (trees_of.block_of source.now) (trees_of.chart_of chart.now)) }
{
    let block = basic(alloc, source, chart)?;
    Ok(Made {
        shape: Shape::Basic(Rc::new(alloc, block)?),
        deep: 0,
    })
}

// The declaration of a composite, with the network in it.
#[derive(Clone, Copy)]
struct CompositeTree<'a> {
    source: &'a BlockTree,
    network: &'a NetworkTree,
}

// A composite of these instances.
fn composite(
    alloc: Global,
    face: Face,
    instances: Vec<Instance>,
    deep: usize,
    network: &NetworkTree,
) -> Result<Made, TypeFault>
    ensures bounded { IfOk result (λ m. m.deep ≡ deep) }
    ensures made { (bs : List decl.BlockTree) (b : decl.BlockTree) (ins outs : List Declared) (d n : ℕ) → IsComposite bs b ins outs (face_of face) (trees_of.network_of network.now) d instances.items n → deep ≡ suc n → IfOk result (IsTyped bs (suc d) b) }
    ensures refused { (bs : List decl.BlockTree) (b : decl.BlockTree) (ins outs : List Declared) (d n : ℕ) → IsComposite bs b ins outs (face_of face) (trees_of.network_of network.now) d instances.items n → IfErr result (IsTypeFault bs b) }
{
    let network = wire(alloc, &face, instances, network)?;
    Ok(Made {
        shape: Shape::Composite(Rc::new(alloc, face)?, Rc::new(alloc, network)?),
        deep,
    })
}

// A path with one more type.
fn extended<'a>(
    alloc: Global,
    path: &[&'a BlockTree],
    block: &'a BlockTree,
) -> Result<Vec<&'a BlockTree>, AllocError>
    ensures { IfOk result (λ v. map tree_of v.items ≡ map tree_of path.now ++ trees_of.block_of block.now ∷ []) }
{
    let mut longer = Vec::new(alloc);
    for outer in path {
        longer.push(*outer)?;
    }
    longer.push(block)?;
    Ok(longer)
}

/// Whether a type of this name is on a path.
pub(crate) fn is_on(path: &[&BlockTree], name: &str) -> bool
    ensures { result ≡ true ↔ Any (λ b. b.name.text ≡ name.now) (map tree_of path.now) }
{
    for block in path {
        if block.name.text.as_str() == name {
            return true;
        }
    }
    false
}

// The larger number.
fn larger(first: usize, second: usize) -> usize
    ensures { result ≡ max first second }
{
    if first < second { second } else { first }
}

// A declared type, with composites nested at most `room` deep.
#[cycle(making)]
fn make<'a>(
    alloc: Global,
    types: &Types<'a>,
    memo: &mut Memo,
    path: &[&'a BlockTree],
    room: usize,
    source: &'a BlockTree,
) -> Result<Made, Unmade<'a>>
    ensures bounded { IfOk result (λ m. m.deep ≤ room) }
    ensures made { (bs : List decl.BlockTree) → IsTable bs types.now → IsMemo bs memo.old → IfOk result (IsTyped bs room (trees_of.block_of source.now)) }
    ensures kept { (bs : List decl.BlockTree) → IsTable bs types.now → IsMemo bs memo.old → OnOk result (IsMemo bs memo.new) }
    ensures refused { (bs : List decl.BlockTree) → IsTable bs types.now → IsMemo bs memo.old → IsOpen bs (map tree_of path.now) (trees_of.block_of source.now) → IfErr result (IsUnmade bs room (trees_of.block_of source.now)) }
{
    match &source.body {
        BodyTree::Chart(chart) => Ok(basic_type(alloc, source, chart)?),
        BodyTree::Network(network) => {
            let tree = CompositeTree { source, network };
            make_composite(alloc, types, memo, path, room, &tree)
        }
    }
}

// The instances of a composite, with how deep composites nest in them: at most `room`.
#[cycle(making)]
fn inside<'a>(
    alloc: Global,
    types: &Types<'a>,
    memo: &mut Memo,
    path: &[&'a BlockTree],
    room: usize,
    tree: &CompositeTree<'a>,
) -> Result<(Vec<Instance>, usize), Unmade<'a>>
    ensures bounded { IfOk result (λ p. p.1 ≤ room) }
    ensures made { (bs : List decl.BlockTree) → IsTable bs types.now → IsMemo bs memo.old → IfOk result (λ p. AreParts bs room (trees_of.network_of tree.now.network.now).instances p.0.items p.1) }
    ensures kept { (bs : List decl.BlockTree) → IsTable bs types.now → IsMemo bs memo.old → OnOk result (IsMemo bs memo.new) }
    ensures refused { (bs : List decl.BlockTree) → IsTable bs types.now → IsMemo bs memo.old → (trees_of.block_of tree.now.source.now).body ≡ decl.Network (trees_of.network_of tree.now.network.now) → IsOpen bs (map tree_of path.now) (trees_of.block_of tree.now.source.now) → IfErr result (IsUnmade bs (suc room) (trees_of.block_of tree.now.source.now)) }
{
    let path = extended(alloc, path, tree.source)?;
    match parts(alloc, types, memo, &path, room, &tree.network.instances) {
        Ok((instances, deep)) => Ok((instances, deep)),
        Err(unmade) => Err(outer(unmade, tree.source)),
    }
}

// A composite, with composites nested at most `room` deep.
#[cycle(making)]
fn make_composite<'a>(
    alloc: Global,
    types: &Types<'a>,
    memo: &mut Memo,
    path: &[&'a BlockTree],
    room: usize,
    tree: &CompositeTree<'a>,
) -> Result<Made, Unmade<'a>>
    ensures bounded { IfOk result (λ m. m.deep ≤ room) }
    ensures made { (bs : List decl.BlockTree) → IsTable bs types.now → IsMemo bs memo.old → (trees_of.block_of tree.now.source.now).body ≡ decl.Network (trees_of.network_of tree.now.network.now) → IfOk result (IsTyped bs room (trees_of.block_of tree.now.source.now)) }
    ensures kept { (bs : List decl.BlockTree) → IsTable bs types.now → IsMemo bs memo.old → OnOk result (IsMemo bs memo.new) }
    ensures refused { (bs : List decl.BlockTree) → IsTable bs types.now → IsMemo bs memo.old → (trees_of.block_of tree.now.source.now).body ≡ decl.Network (trees_of.network_of tree.now.network.now) → IsOpen bs (map tree_of path.now) (trees_of.block_of tree.now.source.now) → IfErr result (IsUnmade bs room (trees_of.block_of tree.now.source.now)) }
{
    if room == 0 {
        return Err(Unmade::TooDeep(tree.source));
    }
    let face = face(alloc, tree.source)?;
    match inside(alloc, types, memo, path, room - 1, tree) {
        Ok((instances, deep)) => Ok(composite(alloc, face, instances, deep + 1, tree.network)?),
        Err(unmade) => Err(unmade),
    }
}

// The body of a declared type, with how deep composites nest in it. A type is made once.
#[cycle(making)]
pub(crate) fn body_of_type<'a>(
    alloc: Global,
    types: &Types<'a>,
    memo: &mut Memo,
    path: &[&'a BlockTree],
    room: usize,
    source: &'a BlockTree,
) -> Result<(Body, usize), Unmade<'a>>
    ensures bounded { IfOk result (λ p. p.1 ≤ room) }
    ensures made { (bs : List decl.BlockTree) → IsTable bs types.now → IsMemo bs memo.old → IsNamed bs (trees_of.block_of source.now) → IfOk result (λ p. IsTypedBody bs room (trees_of.block_of source.now) p.0 p.1) }
    ensures kept { (bs : List decl.BlockTree) → IsTable bs types.now → IsMemo bs memo.old → IsNamed bs (trees_of.block_of source.now) → OnOk result (IsMemo bs memo.new) }
    ensures refused { (bs : List decl.BlockTree) → IsTable bs types.now → IsMemo bs memo.old → IsOpen bs (map tree_of path.now) (trees_of.block_of source.now) → IfErr result (IsUnmade bs room (trees_of.block_of source.now)) }
{
    match recall(memo, source.name.text.as_str()) {
        Some(made) => {
            if made.deep > room {
                return Err(Unmade::TooDeep(source));
            }
            Ok((body(&made.shape)?, made.deep))
        }
        None => {
            let made = make(alloc, types, memo, path, room, source)?;
            let shared = body(&made.shape)?;
            let deep = made.deep;
            remember(memo, &source.name.text, made)?;
            Ok((shared, deep))
        }
    }
}

// An instance, with how deep composites nest in it.
#[cycle(making)]
fn part<'a>(
    alloc: Global,
    types: &Types<'a>,
    memo: &mut Memo,
    path: &[&'a BlockTree],
    room: usize,
    source: &'a InstanceTree,
) -> Result<(Instance, usize), Unmade<'a>>
    ensures bounded { IfOk result (λ p. p.1 ≤ room) }
    ensures made { (bs : List decl.BlockTree) → IsTable bs types.now → IsMemo bs memo.old → IfOk result (λ p. IsPart bs room (trees_of.instance_of source.now) p.0 p.1) }
    ensures kept { (bs : List decl.BlockTree) → IsTable bs types.now → IsMemo bs memo.old → OnOk result (IsMemo bs memo.new) }
    ensures refused { (bs : List decl.BlockTree) → IsTable bs types.now → IsMemo bs memo.old → ((c : decl.BlockTree) → IsOf bs (trees_of.instance_of source.now) c → IsPath bs (map tree_of path.now) c) → IfErr result (IsHalted bs (map tree_of path.now) room (trees_of.instance_of source.now)) }
{
    if let Some(instance) = served(alloc, source)? {
        return Ok((instance, 0));
    }
    let Some(block) = type_of(types, source.of_type.text.as_str()) else {
        return Err(Unmade::Fault(TypeFault::UnknownName(source.of_type.at)));
    };
    if is_on(path, source.of_type.text.as_str()) {
        return Err(Unmade::Fault(TypeFault::RecursiveComposite(source.of_type.at)));
    }
    let (body, deep) = body_of_type(alloc, types, memo, path, room, block)?;
    Ok((plain(alloc, source, body)?, deep))
}

/// Instances in text order, with how deep composites nest in them: at most `room`. The path is that of the composites around them.
#[cycle(making)]
pub(crate) fn parts<'a>(
    alloc: Global,
    types: &Types<'a>,
    memo: &mut Memo,
    path: &[&'a BlockTree],
    room: usize,
    sources: &'a [InstanceTree],
) -> Result<(Vec<Instance>, usize), Unmade<'a>>
    ensures bounded { IfOk result (λ p. p.1 ≤ room) }
    ensures made { (bs : List decl.BlockTree) → IsTable bs types.now → IsMemo bs memo.old → IfOk result (λ p. AreParts bs room (map trees_of.instance_of sources.now) p.0.items p.1) }
    ensures kept { (bs : List decl.BlockTree) → IsTable bs types.now → IsMemo bs memo.old → OnOk result (IsMemo bs memo.new) }
    ensures refused { (bs : List decl.BlockTree) → IsTable bs types.now → IsMemo bs memo.old → LeadsTo bs (map tree_of path.now) (map trees_of.instance_of sources.now) → IfErr result (HaltsAt bs (map tree_of path.now) room (map trees_of.instance_of sources.now)) }
{
    let mut instances = Vec::new(alloc);
    let mut deepest = 0;
    for source in sources {
        let (instance, deep) = part(alloc, types, memo, path, room, source)?;
        instances.push(instance)?;
        deepest = larger(deepest, deep);
    }
    Ok((instances, deepest))
}
