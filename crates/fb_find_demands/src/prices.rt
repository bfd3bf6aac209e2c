//! What algorithms cost at most.

ghost use Rattle.std.specs.Prelude.{◌≡◌, None, Some, IfOk, OnOk};
ghost use Rattle.std.specs.List.{AllByRecursion};
ghost use Rattle.std.specs.Option.{option_map};
ghost use Rattle.st_types.specs.CommandViews.{commands_of};
ghost use Rattle.fb_types_blocks.specs.Views.{procedures_of};
ghost use Rattle.fb_flat.specs.Leaves.{kind_of};
ghost use Rattle.fb_ranges.specs.Views.{spans_of};
ghost use Rattle.fb_find_demands.specs.Prices.{most, prices, kind_prices, IsPriced};

use crate::known::{Priced, found, keep};
use crate::scene::MANY;
use fb_flat::{Body, Leaf};
use fb_ranges::{Ranges, copied, max_steps};
use fb_types_blocks::Block;
use indexmap::IndexMap;
use st_types::Algo;
use std::alloc::{AllocError, Global};
use std::rc::Rc;

// The most steps of an algorithm under a table of ranges, by an examination in a copy of it. What is told of none stands for all greater numbers.
fn price(
    alloc: Global,
    algorithm: &Algo,
    ranges: &Ranges,
    work: &mut Ranges,
    asked: &mut Ranges,
) -> Result<u64, AllocError>
    requires { spans_of work.old ≡ spans_of ranges.now }
    ensures answer { IfOk result (λ n. n ≡ most (Some (spans_of ranges.now)) (commands_of algorithm.now.statements.items)) }
    ensures rest { OnOk result (spans_of work.new ≡ spans_of ranges.now) }
{
    match max_steps(alloc, algorithm, ranges, work, asked) {
        Ok(Some(steps)) => Ok(steps),
        Ok(None) => Ok(MANY),
        Err(_) => Err(AllocError),
    }
}

// The same of each algorithm of a block, in their order.
fn known_prices(
    alloc: Global,
    procedures: &IndexMap<String, Algo>,
    ranges: &Ranges,
) -> Result<Vec<u64>, AllocError>
    ensures { IfOk result (λ v. v.items ≡ prices (Some (spans_of ranges.now)) (procedures_of procedures.now)) }
{
    let mut work = copied(ranges)?;
    let mut asked = copied(ranges)?;
    let mut prices = Vec::new(alloc);
    for index in 0..procedures.len() {
        let Some((_, algorithm)) = procedures.get_index(index) else {
            return Ok(prices);
        };
        prices.push(price(alloc, algorithm, ranges, &mut work, &mut asked)?)?;
    }
    Ok(prices)
}

// The same without a table, where nothing is told of any.
fn unknown_prices(
    alloc: Global,
    procedures: &IndexMap<String, Algo>,
) -> Result<Vec<u64>, AllocError>
    ensures { IfOk result (λ v. v.items ≡ prices None (procedures_of procedures.now)) }
{
    let mut prices = Vec::new(alloc);
    for _ in 0..procedures.len() {
        prices.push(MANY)?;
    }
    Ok(prices)
}

// The same under a table. Kept for other instances of the block.
fn noted_prices<'a>(
    alloc: Global,
    known: &mut Vec<Priced<'a>>,
    block: &'a Rc<Block>,
    ranges: &'a Ranges,
) -> Result<Vec<u64>, AllocError>
    requires { AllByRecursion IsPriced known.old.items }
    ensures answer { IfOk result (λ v. v.items ≡ prices (Some (spans_of ranges.now)) (procedures_of block.now.value.procedures)) }
    ensures known { OnOk result (AllByRecursion IsPriced known.new.items) }
{
    let own = known_prices(alloc, &block.procedures, ranges)?;
    let prices = own.clone()?;
    keep(
        known,
        Priced {
            block,
            ranges,
            prices,
        },
    )?;
    Ok(own)
}

// The same, by an examination only where no instance before is alike.
fn shared_prices<'a>(
    alloc: Global,
    known: &mut Vec<Priced<'a>>,
    block: &'a Rc<Block>,
    ranges: &'a Ranges,
) -> Result<Vec<u64>, AllocError>
    requires { AllByRecursion IsPriced known.old.items }
    ensures answer { IfOk result (λ v. v.items ≡ prices (Some (spans_of ranges.now)) (procedures_of block.now.value.procedures)) }
    ensures known { OnOk result (AllByRecursion IsPriced known.new.items) }
{
    match found(known, block, ranges)? {
        Some(prices) => Ok(prices),
        None => noted_prices(alloc, known, block, ranges),
    }
}

// The same under a table, or without one.
fn block_prices<'a>(
    alloc: Global,
    known: &mut Vec<Priced<'a>>,
    block: &'a Rc<Block>,
    table: Option<&'a Ranges>,
) -> Result<Vec<u64>, AllocError>
    requires { AllByRecursion IsPriced known.old.items }
    ensures answer { IfOk result (λ v. v.items ≡ prices (option_map (λ t. spans_of t.now) table.entry) (procedures_of block.now.value.procedures)) }
    ensures known { OnOk result (AllByRecursion IsPriced known.new.items) }
{
    match table {
        Some(ranges) => shared_prices(alloc, known, block, ranges),
        None => unknown_prices(alloc, &block.procedures),
    }
}

/// What the algorithms of a leaf cost under a table of ranges, in their order. Its prices are shared with the leaves before, where one of these is alike.
pub(crate) fn leaf_prices<'a>(
    alloc: Global,
    known: &mut Vec<Priced<'a>>,
    leaf: &'a Leaf,
    table: Option<&'a Ranges>,
) -> Result<Vec<u64>, AllocError>
    requires { AllByRecursion IsPriced known.old.items }
    ensures answer { IfOk result (λ v. v.items ≡ kind_prices (option_map (λ t. spans_of t.now) table.entry) (kind_of leaf.now.body)) }
    ensures known { OnOk result (AllByRecursion IsPriced known.new.items) }
{
    match &leaf.body {
        Body::Basic(block) => block_prices(alloc, known, block, table),
        Body::Served(_) => Ok(Vec::new(alloc)),
    }
}
