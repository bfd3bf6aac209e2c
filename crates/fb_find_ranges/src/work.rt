//! What algorithms ask.

ghost use Rattle.std.specs.Prelude.{◌≡◌, IfOk, OnOk};
ghost use Rattle.fb_model.specs.Names.{Name};
ghost use Rattle.fb_model.specs.Spans.{joined};
ghost use Rattle.fb_model.specs.Asking as book;
ghost use Rattle.st_types.specs.CommandViews.{commands_of};
ghost use Rattle.fb_types_blocks.specs.Views.{procedures_of};
ghost use Rattle.fb_flat.specs.Leaves.{kind_of};
ghost use Rattle.fb_ranges.specs.Views.{spans_of};
ghost use Rattle.fb_find_ranges.specs.Lines.{all_grown, grown_by, IsAsked};

use fb_flat::{Body, Leaf};
use fb_ranges::{Ranges, copied, grow};
use indexmap::IndexMap;
use st_types::Algo;
use std::alloc::{AllocError, Global};

// Adds what one algorithm asks. It is examined in a table of its own, which begins and ends with the ranges.
fn ask(
    alloc: Global,
    algo: &Algo,
    ranges: &Ranges,
    work: &mut Ranges,
    asked: &mut Ranges,
) -> Result<(), AllocError>
    requires { spans_of work.old ≡ spans_of ranges.now }
    ensures asks { OnOk result ((x : Name) → joined (spans_of asked.new x) (spans_of ranges.now x) ≡ joined (spans_of asked.old x) (book.grown (spans_of ranges.now) (commands_of algo.now.statements.items) x)) }
    ensures rest { OnOk result (spans_of work.new ≡ spans_of ranges.now) }
{
    match grow(alloc, algo, ranges, work, asked) {
        Ok(()) => Ok(()),
        Err(_) => Err(AllocError),
    }
}

// What all algorithms of a block ask.
fn all_asked(
    alloc: Global,
    procedures: &IndexMap<String, Algo>,
    ranges: &Ranges,
) -> Result<Ranges, AllocError>
    ensures { IfOk result (λ r. IsAsked (spans_of r) (all_grown (spans_of ranges.now) (procedures_of procedures.now)) (spans_of ranges.now)) }
{
    let mut work = copied(ranges)?;
    let mut asked = copied(ranges)?;
    for index in 0..procedures.len() {
        let Some((_, algo)) = procedures.get_index(index) else {
            return Ok(asked);
        };
        ask(alloc, algo, ranges, &mut work, &mut asked)?;
    }
    Ok(asked)
}

/// What all algorithms of a leaf ask, joined to its ranges; those of services ask nothing.
pub(crate) fn asked(alloc: Global, leaf: &Leaf, ranges: &Ranges) -> Result<Ranges, AllocError>
    ensures { IfOk result (λ r. IsAsked (spans_of r) (grown_by (spans_of ranges.now) (kind_of leaf.now.body)) (spans_of ranges.now)) }
{
    match &leaf.body {
        Body::Basic(block) => all_asked(alloc, &block.procedures, ranges),
        Body::Served(_) => copied(ranges),
    }
}
