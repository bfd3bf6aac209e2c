//! The table of the types that instances may have.

ghost use Rattle.std.specs.Prelude.{◌≡◌, ◌++◌, ◌∷◌, [], List, map, OnOk, IfOk};
ghost use Rattle.std.specs.Option.{option_map};
ghost use Rattle.fb_model.specs.Declarations as decl;
ghost use Rattle.fb_model.specs.Names.{is_in};
ghost use Rattle.fb_model.specs.Typing.{service_names};
ghost use Rattle.fb_model.specs.NetworkTyping.{type_named};
ghost use Rattle.fb_tree.specs.Files as trees_of;
ghost use Rattle.fb_types.specs.Made.{tree_of, IsTable};

use fb_tree::BlockTree;
use indexmap::IndexMap;
use std::alloc::{AllocError, Global};

/// Types by their names: of two types of one name the first.
pub(crate) type Types<'a> = IndexMap<String, &'a BlockTree>;

// Adds a type, unless there is one of its name.
fn add<'a>(types: &mut Types<'a>, block: &'a BlockTree) -> Result<(), AllocError>
    ensures { (bs : List decl.BlockTree) → IsTable bs types.old → OnOk result (IsTable (bs ++ trees_of.block_of block.now ∷ []) types.new) }
{
    if !types.contains_key(block.name.text.as_str()) {
        types.insert(block.name.text.clone()?, block)?;
    }
    Ok(())
}

// Adds types, in order.
fn add_all<'a>(types: &mut Types<'a>, blocks: &'a [BlockTree]) -> Result<(), AllocError>
    ensures { (bs : List decl.BlockTree) → IsTable bs types.old → OnOk result (IsTable (bs ++ map trees_of.block_of blocks.now) types.new) }
{
    for block in blocks {
        add(types, block)?;
    }
    Ok(())
}

/// The table of the types of a source and of a library behind it.
pub(crate) fn table_of<'a>(
    alloc: Global,
    source: &'a [BlockTree],
    library: &'a [BlockTree],
) -> Result<Types<'a>, AllocError>
    ensures { IfOk result (IsTable (map trees_of.block_of source.now ++ map trees_of.block_of library.now)) }
{
    let mut types = IndexMap::new(alloc);
    add_all(&mut types, source)?;
    add_all(&mut types, library)?;
    Ok(types)
}

/// The type of a name.
pub(crate) fn type_of<'a>(types: &Types<'a>, name: &str) -> Option<&'a BlockTree>
    ensures { (bs : List decl.BlockTree) → IsTable bs types.now → option_map tree_of result ≡ type_named bs name.now }
{
    types.get(name).copied()
}

/// Whether a name is that of a service, which no declared type may have.
pub(crate) fn is_service(name: &str) -> bool
    ensures { result ≡ is_in name.now service_names }
{
    name == "INPUT"
        || name == "OUTPUT"
        || name == "PUBLISH"
        || name == "SUBSCRIBE"
        || name == "E_DELAY"
        || name == "E_CYCLE"
        || name == "E_RESTART"
}
