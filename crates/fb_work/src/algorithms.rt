//! What the algorithms of a leaf cost.

ghost use Rattle.std.specs.Prelude.{◌≡◌, ◌<◌, ◌++◌, ◌∷◌, [], map, IfErr, IfOk, OnOk};
ghost use Rattle.std.specs.List.{Any};
ghost use Rattle.fb_model.specs.System as system;
ghost use Rattle.fb_model.specs.CertificateText.{most_steps};
ghost use Rattle.fb_model.specs.Wires as wires;
ghost use Rattle.fb_model.specs.Ranges.{rows};
ghost use Rattle.fb_model_laws.specs.Words.{IsWordyLeaf};
ghost use Rattle.st_types.specs.CommandViews.{commands_of};
ghost use Rattle.fb_types_blocks.specs.Views.{procedures_of};
ghost use Rattle.fb_cert.specs.Views.{certificate_of};
ghost use Rattle.fb_flat.specs.Tables.{IsLeaf};
ghost use Rattle.fb_ranges.specs.Views.{spans_of};
ghost use Rattle.fb_prices.specs.Words.{prices_of};
ghost use Rattle.fb_work.specs.Algorithms.{IsDear, OrMemory, called, costs_of};

use crate::refusal::NoWork;
use fb_cert::Certificate;
use fb_check_ranges::block_rows;
use fb_flat::{Body, Leaf};
use fb_prices::{Prices, Primitive};
use fb_ranges::Ranges;
use fb_work_statements::{MANY, added, algorithm_work};
use indexmap::IndexMap;
use st_types::Algo;
use std::alloc::{AllocError, Global};

// What an algorithm costs with its call.
fn call_work(alloc: Global, prices: &Prices, algorithm: &Algo, rows: &Ranges) -> Result<u64, NoWork>
    ensures value { IfOk result (λ n. n ≡ called (prices_of prices.now) (spans_of rows.now) (commands_of algorithm.now.statements.items)) }
    ensures dear { IfErr result (OrMemory (most_steps < called (prices_of prices.now) (spans_of rows.now) (commands_of algorithm.now.statements.items))) }
{
    let work = algorithm_work(alloc, prices, algorithm, rows)?;
    let called = added(prices.price(Primitive::Call), work);
    if called == MANY {
        return Err(NoWork::TooMuch);
    }
    Ok(called)
}

// Adds a number.
fn add(number: u64, numbers: &mut Vec<u64>) -> Result<(), AllocError>
    ensures { OnOk result (numbers.new.items ≡ numbers.old.items ++ number ∷ []) }
{
    numbers.push(number)?;
    Ok(())
}

// The same of each algorithm of a block.
fn block_costs(
    alloc: Global,
    prices: &Prices,
    procedures: &IndexMap<String, Algo>,
    rows: &Ranges,
) -> Result<Vec<u64>, NoWork>
    ensures value { IfOk result (λ v. v.items ≡ map (λ (q : system.Procedure). called (prices_of prices.now) (spans_of rows.now) q.algorithm) (procedures_of procedures.now)) }
    ensures dear { IfErr result (OrMemory (Any (λ (q : system.Procedure). most_steps < called (prices_of prices.now) (spans_of rows.now) q.algorithm) (procedures_of procedures.now))) }
{
    let mut costs = Vec::new(alloc);
    for index in 0..procedures.len() {
        let Some((_, algorithm)) = procedures.get_index(index) else {
            return Ok(costs);
        };
        add(call_work(alloc, prices, algorithm, rows)?, &mut costs)?;
    }
    Ok(costs)
}

/// What the algorithms of a leaf cost with their calls under the rows of a certificate, in their order.
pub(crate) fn leaf_costs(
    alloc: Global,
    prices: &Prices,
    certificate: &Certificate,
    leaf: &Leaf,
) -> Result<Vec<u64>, NoWork>
    ensures value { (l : wires.Leaf) → IsLeaf leaf.now l → IsWordyLeaf l → IfOk result (λ v. v.items ≡ costs_of (prices_of prices.now) (rows (certificate_of certificate.now).ranges l.path l.kind) l.kind) }
    ensures dear { (l : wires.Leaf) → IsLeaf leaf.now l → IsWordyLeaf l → IfErr result (OrMemory (IsDear (prices_of prices.now) (rows (certificate_of certificate.now).ranges l.path l.kind) l.kind)) }
{
    match &leaf.body {
        Body::Basic(block) => {
            let rows = block_rows(alloc, certificate, leaf.path.as_str(), block)?;
            block_costs(alloc, prices, &block.procedures, &rows)
        }
        Body::Served(_) => Ok(Vec::new(alloc)),
    }
}
