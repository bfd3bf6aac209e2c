//! Charts by numbers, with slots.

ghost use Rattle.std.specs.Prelude.{◌≡◌, true, IfOk, IfSome, OnOk};
ghost use Rattle.std.specs.List.{AllByRecursion};
ghost use Rattle.fb_types_blocks.specs.Views.{block_of};
ghost use Rattle.fb_chart.specs.Tables.{Each};
ghost use Rattle.fb_device_tables.specs.Filling.{IsProcedureMade, IsCodeOf, IsShared, IsChartMade};

use crate::state::states;
use fb_chart::{Chart, ChartCode};
use fb_types_blocks::Block;
use fb_types_same::is_alike;
use st_exec::{Layout, Procedure, coded_algorithm};
use std::alloc::{AllocError, Global};
use std::rc::Rc;

/// What runs of the chart of a block whose working values lie so. Other instances of the block share it.
#[derive(Drop)]
pub(crate) struct Shared<'a> {
    pub(crate) block: &'a Rc<Block>,
    pub(crate) own: &'a Layout,
    pub(crate) code: Rc<ChartCode>,
}

// The algorithms of a block with slots, in order.
fn procedures(alloc: Global, own: &Layout, block: &Block) -> Result<Vec<Procedure>, AllocError>
    ensures { IfOk result (λ v. Each (IsProcedureMade own.now) block.now.procedures.entries v.items) }
{
    let mut procedures = Vec::new(alloc);
    for index in 0..block.procedures.len() {
        let Some((_, algorithm)) = block.procedures.get_index(index) else {
            return Ok(procedures);
        };
        procedures.push(coded_algorithm(alloc, own, algorithm)?)?;
    }
    Ok(procedures)
}

// What runs of a block.
fn code(alloc: Global, own: &Layout, block: &Block) -> Result<ChartCode, AllocError>
    ensures { IfOk result (λ x. IsCodeOf own.now (block_of block.now) x) }
{
    let states = states(alloc, own, block)?;
    let procedures = procedures(alloc, own, block)?;
    Ok(ChartCode { states, procedures })
}

// Whether what runs of one block serves another whose working values lie so. Blocks at one place in memory are the same, but only their parts prove it.
fn serves(shared: &Shared, own: &Layout, block: &Rc<Block>) -> bool
    ensures { result ≡ true → IsShared shared.now → IsCodeOf own.now (block_of block.now.value) shared.now.code.value }
{
    if !Rc::ptr_eq(shared.block, block) {
        return false;
    }
    if !shared.own.is_like(own) {
        return false;
    }
    is_alike(shared.block, block)
}

// What runs of a block, where another instance has it.
fn found(
    known: &[Shared],
    own: &Layout,
    block: &Rc<Block>,
) -> Result<Option<Rc<ChartCode>>, AllocError>
    requires { AllByRecursion IsShared known.now }
    ensures { IfOk result (λ o. IfSome o (λ code. IsCodeOf own.now (block_of block.now.value) code.value)) }
{
    for shared in known {
        if serves(shared, own, block) {
            return Ok(Some(shared.code.clone()?));
        }
    }
    Ok(None)
}

// Makes what runs of a block, and notes it for other instances.
fn noted<'a>(
    alloc: Global,
    known: &mut Vec<Shared<'a>>,
    own: &'a Layout,
    block: &'a Rc<Block>,
) -> Result<Rc<ChartCode>, AllocError>
    requires { AllByRecursion IsShared known.old.items }
    ensures code { IfOk result (λ code. IsCodeOf own.now (block_of block.now.value) code.value) }
    ensures known { OnOk result (AllByRecursion IsShared known.new.items) }
{
    let code = Rc::new(alloc, code(alloc, own, block)?)?;
    let same = code.clone()?;
    known.push(Shared {
        block,
        own,
        code: same,
    })?;
    Ok(code)
}

/// The chart of a basic block whose working values lie so. What runs of it is shared with the instances before, where one of these has it.
pub(crate) fn chart<'a>(
    alloc: Global,
    known: &mut Vec<Shared<'a>>,
    own: &'a Layout,
    block: &'a Rc<Block>,
) -> Result<Chart, AllocError>
    requires { AllByRecursion IsShared known.old.items }
    ensures chart { IfOk result (λ c. IsChartMade own.now block.now.value c) }
    ensures known { OnOk result (AllByRecursion IsShared known.new.items) }
{
    let code = match found(known, own, block)? {
        Some(code) => code,
        None => noted(alloc, known, own, block)?,
    };
    Ok(Chart {
        block: block.clone()?,
        code,
    })
}
