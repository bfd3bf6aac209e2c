//! Blocks that were examined: leaves that are alike share one examination.

ghost use Rattle.std.specs.Prelude.{◌≡◌, true, OnOk};
ghost use Rattle.std.specs.List.{AllByRecursion};
ghost use Rattle.fb_ranges.specs.Views.{spans_of};
ghost use Rattle.fb_types_blocks.specs.Views.{block_of};
ghost use Rattle.fb_check_ranges.specs.Examining.{AreClear, IsExamined};

use crate::alike::are_alike;
use fb_ranges::Ranges;
use fb_types_blocks::Block;
use std::alloc::AllocError;
use std::rc::Rc;

/// The most examined blocks that are kept: so the search among them stays short, however many blocks a text has.
const MOST_KEPT: usize = 32;

/// A block whose algorithms and guards are clear under these rows. Other leaves of the block that have the same rows need no examination.
#[derive(Drop)]
pub(crate) struct Examined<'a> {
    pub(crate) block: &'a Rc<Block>,
    pub(crate) rows: Ranges,
}

/// Whether a block that is alike was examined under rows that are alike.
pub(crate) fn was_examined(known: &[Examined], block: &Rc<Block>, rows: &Ranges) -> bool
    requires { AllByRecursion IsExamined known.now }
    ensures { result ≡ true → AreClear (spans_of rows.now) (block_of block.now.value) }
{
    for examined in known {
        if are_alike(examined.block, &examined.rows, block, rows) {
            return true;
        }
    }
    false
}

/// Notes a block that is clear under its rows. Where many are noted already, they are given up first.
pub(crate) fn note<'a>(
    known: &mut Vec<Examined<'a>>,
    block: &'a Rc<Block>,
    rows: Ranges,
) -> Result<(), AllocError>
    requires known { AllByRecursion IsExamined known.old.items }
    requires clear { AreClear (spans_of rows) (block_of block.now.value) }
    ensures { OnOk result (AllByRecursion IsExamined known.new.items) }
{
    if known.len() >= MOST_KEPT {
        known.clear();
    }
    known.push(Examined { block, rows })?;
    Ok(())
}
