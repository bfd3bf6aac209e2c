//! Block types by their names.

use fb_tree::BlockTree;
use fbr_places::Types;
use indexmap::IndexMap;
use std::alloc::{AllocError, Global};

/// At which places declarations of block types stand, by their names: in a text, and among those that are there beforehand.
#[derive(Drop)]
pub struct Known {
    own: IndexMap<String, usize>,
    given: IndexMap<String, usize>,
}

// Adds the places of declarations by their names.
fn add_blocks(blocks: &[BlockTree], found: &mut IndexMap<String, usize>) -> Result<(), AllocError> {
    for (index, block) in blocks.iter().enumerate() {
        found.insert(block.name.text.clone()?, index)?;
    }
    Ok(())
}

impl Known {
    /// All that are known to a text.
    pub fn of(alloc: Global, types: Types<'_>) -> Result<Known, AllocError> {
        let mut own = IndexMap::new(alloc);
        let mut given = IndexMap::new(alloc);
        add_blocks(&types.file.blocks, &mut own)?;
        add_blocks(&types.library.blocks, &mut given)?;
        Ok(Known { own, given })
    }

    /// The declaration of a name that a text has, of the types that these places are of.
    pub fn own<'a>(&self, types: Types<'a>, name: &str) -> Option<&'a BlockTree> {
        let index = self.own.get(name)?;
        types.file.blocks.get(*index)
    }

    /// The one that is there beforehand, and that the text does not have.
    pub fn given<'a>(&self, types: Types<'a>, name: &str) -> Option<&'a BlockTree> {
        if self.own.get(name).is_some() {
            return None;
        }
        let index = self.given.get(name)?;
        types.library.blocks.get(*index)
    }
}
