//! Whole sources.

ghost use Rattle.std.specs.Prelude.{◌≡◌, ◌++◌, [], List, map, true, OnOk, IfOk, IfErr};
ghost use Rattle.std.specs.List.{AllByRecursion};
ghost use Rattle.fb_model.specs.Declarations as decl;
ghost use Rattle.fb_model.specs.System as book;
ghost use Rattle.fb_model.specs.Typing.{AreDistinct};
ghost use Rattle.fb_model.specs.NetworkTyping.{IsProper, ElaboratesWith};
ghost use Rattle.fb_tree.specs.Files as trees_of;
ghost use Rattle.fb_types_blocks.specs.Answers.{Finds};
ghost use Rattle.fb_types.specs.Views.{system_of, system_offsets, all_offsets};
ghost use Rattle.fb_model.specs.SourceFaults.{IsBlockFault, IsFirstFault, IsSourceFault};
ghost use Rattle.fb_types.specs.Made.{IsTable, IsMemo, IsNamed};

use crate::device::devices;
use crate::ends::channels_alike;
use crate::made::Memo;
use crate::make::body_of_type;
use crate::resource::{DEEP, refusal};
use crate::table::{Types, is_service, table_of};
use crate::typed::Configuration;
use fb_faults::TypeFault;
use fb_tree::{BlockTree, FileTree};
use fb_types_blocks::{at_most, table};
use indexmap::IndexMap;
use std::alloc::Global;

/// The most devices of a system.
pub const DEVICES: usize = 16;

// Refuses a declared type that is not well typed, or has a service's name.
fn declared<'a>(
    alloc: Global,
    types: &Types<'a>,
    memo: &mut Memo,
    source: &'a BlockTree,
) -> Result<(), TypeFault>
    ensures proper { (bs : List decl.BlockTree) → IsTable bs types.now → IsMemo bs memo.old → IsNamed bs (trees_of.block_of source.now) → OnOk result (IsProper bs (trees_of.block_of source.now)) }
    ensures kept { (bs : List decl.BlockTree) → IsTable bs types.now → IsMemo bs memo.old → IsNamed bs (trees_of.block_of source.now) → OnOk result (IsMemo bs memo.new) }
    ensures refused { (bs : List decl.BlockTree) → IsTable bs types.now → IsMemo bs memo.old → IsNamed bs (trees_of.block_of source.now) → IfErr result (IsBlockFault bs (trees_of.block_of source.now)) }
{
    if is_service(source.name.text.as_str()) {
        return Err(TypeFault::DuplicateName(source.name.at));
    }
    match body_of_type(alloc, types, memo, &[], DEEP, source) {
        Ok(_) => Ok(()),
        Err(unmade) => Err(refusal(alloc, types, unmade)),
    }
}

// Refuses declared types that are not well typed.
fn all_declared<'a>(
    alloc: Global,
    types: &Types<'a>,
    memo: &mut Memo,
    sources: &'a [BlockTree],
) -> Result<(), TypeFault>
    ensures proper { (bs : List decl.BlockTree) → IsTable bs types.now → IsMemo bs memo.old → AllByRecursion (IsNamed bs) (map trees_of.block_of sources.now) → OnOk result (AllByRecursion (IsProper bs) (map trees_of.block_of sources.now)) }
    ensures kept { (bs : List decl.BlockTree) → IsTable bs types.now → IsMemo bs memo.old → AllByRecursion (IsNamed bs) (map trees_of.block_of sources.now) → OnOk result (IsMemo bs memo.new) }
    ensures refused { (bs : List decl.BlockTree) → IsTable bs types.now → IsMemo bs memo.old → AllByRecursion (IsNamed bs) (map trees_of.block_of sources.now) → IfErr result (IsFirstFault bs (map trees_of.block_of sources.now)) }
{
    for source in sources {
        declared(alloc, types, memo, source)?;
    }
    Ok(())
}

// The system of a source, over the table of its types and of those of a library, of which none has been made yet.
fn resolved_over<'a>(
    alloc: Global,
    types: &Types<'a>,
    memo: &mut Memo,
    source: &'a FileTree,
) -> Result<Configuration, TypeFault>
    ensures typed { (bs : List decl.BlockTree) → IsTable (map trees_of.block_of source.now.blocks.items ++ bs) types.now → IsMemo (map trees_of.block_of source.now.blocks.items ++ bs) memo.old → AreDistinct (map (λ b. b.name.text) (map trees_of.block_of source.now.blocks.items)) → IfOk result (λ t. ElaboratesWith bs (trees_of.source_of source.now) (system_of t)) }
    ensures offsets { IfOk result (λ t. system_offsets t.devices.items ≡ all_offsets (trees_of.source_of source.now).system.devices) }
    ensures refused { (bs : List decl.BlockTree) → IsTable (map trees_of.block_of source.now.blocks.items ++ bs) types.now → IsMemo (map trees_of.block_of source.now.blocks.items ++ bs) memo.old → AreDistinct (map (λ b. b.name.text) (map trees_of.block_of source.now.blocks.items)) → IfErr result (IsSourceFault bs (trees_of.source_of source.now)) }
{
    all_declared(alloc, types, memo, &source.blocks)?;
    at_most(&source.system.devices, DEVICES)?;
    table(alloc, &source.system.devices)?;
    let devices = devices(alloc, types, memo, &source.system.devices)?;
    channels_alike(alloc, &devices)?;
    Ok(Configuration { devices })
}

// The system of a source, by its parts.
fn resolved(
    alloc: Global,
    library: &[BlockTree],
    source: &FileTree,
) -> Result<Configuration, TypeFault>
    ensures typed { IfOk result (λ t. ElaboratesWith (map trees_of.block_of library.now) (trees_of.source_of source.now) (system_of t)) }
    ensures offsets { IfOk result (λ t. system_offsets t.devices.items ≡ all_offsets (trees_of.source_of source.now).system.devices) }
    ensures refused { IfErr result (IsSourceFault (map trees_of.block_of library.now) (trees_of.source_of source.now)) }
{
    table(alloc, &source.blocks)?;
    let types = table_of(alloc, &source.blocks, library)?;
    let mut memo = IndexMap::new(alloc);
    resolved_over(alloc, &types, &mut memo, source)
}

/// The system that a source is with these event blocks. Types of the source come before event blocks of the same name, and each is made
/// once.
///
/// Refused with `DuplicateName` at the later name of a type, of a resource of one device and of a device, and at the name of a type that
/// is a service's; with `RecursiveComposite` at the type's name of the instance by which a composite is inside itself; with `Limit` at
/// the name of the first type from which more than 16 composites nest, of the 17th device and of the 17th resource of a device, and of the
/// instance by which a resource has more than 1,024 of them; with `UnknownName` at the name of an instance's type that is none; as basic
/// blocks, interfaces, instances and networks are; with `BadService` at the instance of a number of an INPUT or an OUTPUT that its device
/// has already; and with `ChannelShape` at the later instance of two SUBSCRIBEs of one channel in a device, of two ends of a channel
/// that have other types or another format, and of two PUBLISHs of a channel of format 2.
pub fn resolve_with(
    alloc: Global,
    library: &[BlockTree],
    source: &FileTree,
) -> Result<Configuration, TypeFault>
    ensures typed { IfOk result (λ t. ElaboratesWith (map trees_of.block_of library.now) (trees_of.source_of source.now) (system_of t)) }
    ensures offsets { IfOk result (λ t. system_offsets t.devices.items ≡ all_offsets (trees_of.source_of source.now).system.devices) }
    ensures refused { IfErr result (IsSourceFault (map trees_of.block_of library.now) (trees_of.source_of source.now)) }
    ensures only { (s : book.System) → ElaboratesWith (map trees_of.block_of library.now) (trees_of.source_of source.now) s → Finds system_of result s }
{
    resolved(alloc, library, source)
}
