//! What the algorithms of a block cost in a column: leaves that are alike share one examination.

ghost use Rattle.std.specs.Prelude.{◌≡◌, ◌*◌, length, map, replicate, Some, IfOk, IfErr, IfSome, OnOk};
ghost use Rattle.std.specs.List.{AllByRecursion};
ghost use Rattle.fb_model.specs.System as system;
ghost use Rattle.fb_model.specs.Wires as book;
ghost use Rattle.fb_model.specs.Wires.{Charted};
ghost use Rattle.fb_model.specs.Ranges.{rows};
ghost use Rattle.fb_model.specs.Clear.{cost};
ghost use Rattle.fb_model.specs.CertificateText.{names_in};
ghost use Rattle.fb_cert.specs.Views.{certificate_of};
ghost use Rattle.fb_ranges.specs.Views.{spans_of};
ghost use Rattle.fb_types_blocks.specs.Views.{block_of};
ghost use Rattle.fb_check_columns.specs.Columns.{unit_of};
ghost use Rattle.fb_check_columns.specs.Fitting.{IsKnownLeaf};
ghost use Rattle.fb_check_columns.specs.Paying.{IsMemory};
ghost use Rattle.fb_check_columns.specs.Reckoning.{AreSums};
ghost use Rattle.fb_check_columns.specs.Sharing.{HasCosts, IsCosted};

use crate::column::Column;
use crate::cost::costs;
use fb_cert::Certificate;
use fb_check_ranges::{are_alike, block_rows};
use fb_faults::Shortfall;
use fb_ranges::Ranges;
use fb_types_blocks::Block;
use indexmap::IndexMap;
use st_types::Algo;
use std::alloc::{AllocError, Global};
use std::rc::Rc;

/// The most blocks that are kept with their costs: so the search among them stays short, however many blocks a text has.
const MOST_KEPT: usize = 32;

/// What the algorithms of a block cost under these rows, in their order. Other leaves of the block that have the same rows share it.
#[derive(Drop)]
pub(crate) struct Costed<'a> {
    pub(crate) block: &'a Rc<Block>,
    pub(crate) rows: Ranges,
    pub(crate) costs: Vec<Option<u64>>,
}

// What the algorithms of a block cost, where they were examined for a block that is alike.
fn found(
    alloc: Global,
    known: &[Costed],
    block: &Rc<Block>,
    rows: &Ranges,
) -> Result<Option<Vec<Option<u64>>>, AllocError>
    requires { AllByRecursion IsCosted known.now }
    ensures { IfOk result (λ o. IfSome o (λ v. HasCosts (spans_of rows.now) (block_of block.now.value) v.items)) }
{
    for costed in known {
        if are_alike(costed.block, &costed.rows, block, rows) {
            return Ok(Some(Vec::from_slice(alloc, costed.costs.as_slice())?));
        }
    }
    Ok(None)
}

// Notes what the algorithms of a block cost. Where many blocks are noted already, they are given up first.
fn note<'a>(
    known: &mut Vec<Costed<'a>>,
    block: &'a Rc<Block>,
    rows: Ranges,
    costs: Vec<Option<u64>>,
) -> Result<(), AllocError>
    requires known { AllByRecursion IsCosted known.old.items }
    requires costs { HasCosts (spans_of rows) (block_of block.now.value) costs.items }
    ensures { OnOk result (AllByRecursion IsCosted known.new.items) }
{
    if known.len() >= MOST_KEPT {
        known.clear();
    }
    known.push(Costed { block, rows, costs })?;
    Ok(())
}

// Examines the algorithms of a block, and notes what they cost for other leaves.
fn noted<'a>(
    alloc: Global,
    known: &mut Vec<Costed<'a>>,
    block: &'a Rc<Block>,
    rows: Ranges,
) -> Result<Vec<Option<u64>>, Shortfall>
    requires { AllByRecursion IsCosted known.old.items }
    ensures values { IfOk result (λ v. HasCosts (spans_of rows) (block_of block.now.value) v.items) }
    ensures refused { IfErr result IsMemory }
    ensures known { OnOk result (AllByRecursion IsCosted known.new.items) }
{
    let costs = costs(alloc, &block.procedures, &rows)?;
    let same = Vec::from_slice(alloc, costs.as_slice())?;
    note(known, block, rows, same)?;
    Ok(costs)
}

// The most steps of each algorithm of a block under these rows, shared with the leaves before where one of these is alike.
fn shared<'a>(
    alloc: Global,
    known: &mut Vec<Costed<'a>>,
    block: &'a Rc<Block>,
    rows: Ranges,
) -> Result<Vec<Option<u64>>, Shortfall>
    requires { AllByRecursion IsCosted known.old.items }
    ensures values { IfOk result (λ v. HasCosts (spans_of rows) (block_of block.now.value) v.items) }
    ensures refused { IfErr result IsMemory }
    ensures known { OnOk result (AllByRecursion IsCosted known.new.items) }
{
    match found(alloc, known, block, &rows)? {
        Some(costs) => Ok(costs),
        None => noted(alloc, known, block, rows),
    }
}

// What algorithms cost in the column of places: nothing.
fn no_costs(
    alloc: Global,
    procedures: &IndexMap<String, Algo>,
) -> Result<Vec<Option<u64>>, AllocError>
    ensures { IfOk result (λ v. v.items ≡ replicate (length procedures.now.entries) (Some 0)) }
{
    let mut costs = Vec::new(alloc);
    for _ in 0..procedures.len() {
        costs.push(Some(0))?;
    }
    Ok(costs)
}

/// What each algorithm of a block costs in a column: its most steps under the rows of its variables, and no places.
pub(crate) fn algorithm_costs<'a>(
    alloc: Global,
    certificate: &Certificate,
    known: &mut Vec<Costed<'a>>,
    column: Column,
    path: &str,
    block: &'a Rc<Block>,
) -> Result<Vec<Option<u64>>, Shortfall>
    requires { AllByRecursion IsCosted known.old.items }
    ensures values { (b : book.Leaf) → names_in path.now ≡ b.path → Charted (block_of block.now.value) ≡ b.kind → IsKnownLeaf (certificate_of certificate.now).ranges b → IfOk result (λ v. AreSums v.items (map (λ (p : system.Procedure). unit_of column * cost (rows (certificate_of certificate.now).ranges b.path b.kind) p.algorithm) (block_of block.now.value).procedures)) }
    ensures refused { IfErr result IsMemory }
    ensures known { OnOk result (AllByRecursion IsCosted known.new.items) }
{
    match column {
        Column::Steps | Column::Far => {
            let rows = block_rows(alloc, certificate, path, block)?;
            shared(alloc, known, block, rows)
        }
        Column::Places => Ok(no_costs(alloc, &block.procedures)?),
    }
}
