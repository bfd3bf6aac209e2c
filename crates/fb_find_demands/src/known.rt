//! Prices that are known already.

ghost use Rattle.std.specs.Prelude.{◌≡◌, true, Some, IfOk, IfSome, OnOk};
ghost use Rattle.std.specs.List.{AllByRecursion};
ghost use Rattle.fb_types_blocks.specs.Views.{procedures_of};
ghost use Rattle.fb_ranges.specs.Views.{spans_of};
ghost use Rattle.fb_find_demands.specs.Prices.{prices, IsPriced};

use fb_check_ranges::are_alike;
use fb_ranges::Ranges;
use fb_types_blocks::Block;
use std::alloc::AllocError;
use std::rc::Rc;

/// How many blocks are kept with their prices. So each leaf is compared with few others, however many types a system has.
const MOST_KEPT: usize = 32;

/// What the algorithms of a block cost under a table of ranges, in their order. Other instances of the block cost the same under tables that are alike.
#[derive(Drop)]
pub(crate) struct Priced<'a> {
    pub(crate) block: &'a Rc<Block>,
    pub(crate) ranges: &'a Ranges,
    pub(crate) prices: Vec<u64>,
}

// Whether the prices of one block are those of another under this table.
fn serves(priced: &Priced, block: &Rc<Block>, ranges: &Ranges) -> bool
    ensures { result ≡ true → IsPriced priced.now → priced.now.prices.items ≡ prices (Some (spans_of ranges.now)) (procedures_of block.now.value.procedures) }
{
    are_alike(priced.block, priced.ranges, block, ranges)
}

/// The prices of a block under a table, where another instance has them.
pub(crate) fn found(
    known: &[Priced],
    block: &Rc<Block>,
    ranges: &Ranges,
) -> Result<Option<Vec<u64>>, AllocError>
    requires { AllByRecursion IsPriced known.now }
    ensures { IfOk result (λ o. IfSome o (λ v. v.items ≡ prices (Some (spans_of ranges.now)) (procedures_of block.now.value.procedures))) }
{
    for priced in known {
        if serves(priced, block, ranges) {
            return Ok(Some(priced.prices.clone()?));
        }
    }
    Ok(None)
}

/// Keeps the prices of a block for other instances, and lets go of all others where these are many.
pub(crate) fn keep<'a>(known: &mut Vec<Priced<'a>>, priced: Priced<'a>) -> Result<(), AllocError>
    requires old { AllByRecursion IsPriced known.old.items }
    requires new { IsPriced priced }
    ensures { OnOk result (AllByRecursion IsPriced known.new.items) }
{
    if known.len() >= MOST_KEPT {
        known.clear();
    }
    known.push(priced)?;
    Ok(())
}
