//! Sources with the event blocks that are declared beforehand.

ghost use Rattle.std.specs.Prelude.{◌≡◌, map, IfOk, IfErr};
ghost use Rattle.fb_model.specs.System as book;
ghost use Rattle.fb_model.specs.EventBlocks.{Elaborates};
ghost use Rattle.fb_tree.specs.Files as trees_of;
ghost use Rattle.fb_types_networks.specs.Answers.{Finds};
ghost use Rattle.fb_types.specs.Views.{system_of, system_offsets, all_offsets};
ghost use Rattle.fb_model.specs.SourceFaults.{IsRefused};

use crate::event_blocks;
use fb_faults::TypeFault;
use fb_text::Source;
use fb_tree::FileTree;
use fb_types::{Configuration, Typed, resolve_with};
use std::alloc::Global;

// The system of a tree.
fn resolve_tree(alloc: Global, tree: &FileTree) -> Result<Configuration, TypeFault>
    ensures typed { IfOk result (λ t. Elaborates (trees_of.source_of tree.now) (system_of t)) }
    ensures offsets { IfOk result (λ t. system_offsets t.devices.items ≡ all_offsets (trees_of.source_of tree.now).system.devices) }
    ensures refused { IfErr result (IsRefused (trees_of.source_of tree.now)) }
    ensures only { (s : book.System) → Elaborates (trees_of.source_of tree.now) s → Finds system_of result s }
{
    match event_blocks(alloc) {
        Ok(library) => {
            let system = resolve_with(alloc, &library.tree().blocks, tree);
            library.let_go();
            system
        }
        Err(fault) => Err(fault),
    }
}

/// The typed system of a source: types of the text, and the event blocks that are declared beforehand.
///
/// A type of the text comes before an event block of the same name. Each resource has the offset of its name.
pub fn resolve(alloc: Global, source: &Source) -> Result<Typed, TypeFault>
    ensures typed { IfOk result (λ t. Elaborates (trees_of.source_of source.now) (system_of t)) }
    ensures offsets { IfOk result (λ t. system_offsets t.devices.items ≡ all_offsets (trees_of.source_of source.now).system.devices) }
    ensures refused { IfErr result (IsRefused (trees_of.source_of source.now)) }
    ensures only { (s : book.System) → Elaborates (trees_of.source_of source.now) s → Finds system_of result s }
{
    source.stands_in_text();
    match resolve_tree(alloc, source.tree()) {
        Ok(configuration) => Ok(Typed::new(configuration)),
        Err(fault) => Err(fault),
    }
}
