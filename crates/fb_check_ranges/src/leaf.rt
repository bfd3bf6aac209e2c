//! When the rows of a leaf are clear.

ghost use Rattle.std.specs.Prelude.{List, OnOk, IfErr, MatchResult, string_bytes};
ghost use Rattle.std.specs.List.{AllByRecursion};
ghost use Rattle.fb_model.specs.Wires as wires;
ghost use Rattle.fb_model.specs.Ranges.{LeafClears};
ghost use Rattle.fb_cert.specs.Views.{certificate_of};
ghost use Rattle.fb_flat.specs.declared.flat.Leaf as tables;
ghost use Rattle.fb_flat.specs.Tables.{source_at, IsLeaf, AreLeaves};
ghost use Rattle.fb_check_ranges.specs.Reasons.{Blames};
ghost use Rattle.fb_model.specs.Misfits.{Refuses};
ghost use Rattle.fb_check_ranges.specs.Places.{ArePlaces};
ghost use Rattle.fb_check_ranges.specs.Clearing.{VariablesBegin, VariableFails, RunsClear, RunFails, ChartLies, BlockFails};
ghost use Rattle.fb_check_ranges.specs.Examining.{IsExamined};
ghost use Rattle.fb_check_ranges.specs.Fitting.{IsKnownLeaf};
ghost use Rattle.fb_model.specs.Misfits.{LeafFails};
ghost use Rattle.fb_check_ranges.specs.Tables.{AreKnownLeaves};

use crate::begin::{inputs_begin, others_begin};
use crate::examined::{Examined, note, was_examined};
use crate::link::links_lie;
use crate::place::Places;
use crate::row::block_rows;
use crate::run::{algorithms_clear, guards_clear};
use fb_cert::Certificate;
use fb_faults::Unclear;
use fb_flat::{Body, Input, Leaf};
use fb_types_blocks::Block;
use std::alloc::Global;
use std::rc::Rc;

// The rows of a block's variables lie in their types, and hold what the variables have at first.
fn variables_begin(
    alloc: Global,
    certificate: &Certificate,
    path: &str,
    inputs: &[Input],
    block: &Block,
) -> Result<(), Unclear>
    ensures { MatchResult result (λ u. VariablesBegin certificate.now path.now (source_at inputs.now) block.now) (Blames path.now (VariableFails certificate.now path.now (source_at inputs.now) block.now)) }
{
    inputs_begin(alloc, certificate, path, inputs, &block.face.inputs)?;
    others_begin(alloc, certificate, path, &block.face.outputs)?;
    others_begin(alloc, certificate, path, &block.internals)
}

// The algorithms and guards of a block are clear. They are examined where no leaf before was alike.
fn runs_clear<'a>(
    alloc: Global,
    certificate: &Certificate,
    known: &mut Vec<Examined<'a>>,
    path: &str,
    block: &'a Rc<Block>,
) -> Result<(), Unclear>
    requires { AllByRecursion IsExamined known.old.items }
    ensures runs { MatchResult result (λ u. RunsClear certificate.now path.now block.now.value) (Blames path.now (RunFails certificate.now path.now block.now.value)) }
    ensures known { OnOk result (AllByRecursion IsExamined known.new.items) }
{
    let rows = block_rows(alloc, certificate, path, block)?;
    if was_examined(known, block, &rows) {
        return Ok(());
    }
    algorithms_clear(alloc, path, &rows, &block.procedures)?;
    guards_clear(alloc, path, &rows, block.transitions.as_slice())?;
    note(known, block, rows)?;
    Ok(())
}

// The rows of a leaf that is a basic block are clear.
fn chart_clear<'a>(
    alloc: Global,
    certificate: &Certificate,
    places: &Places,
    known: &mut Vec<Examined<'a>>,
    leaf: &Leaf,
    block: &'a Rc<Block>,
) -> Result<(), Unclear>
    requires { AllByRecursion IsExamined known.old.items }
    ensures clears { (ls : List tables.Leaf) → ArePlaces ls places.now → MatchResult result (λ u. ChartLies certificate.now (string_bytes leaf.now.path) ls (source_at leaf.now.inputs.items) block.now.value) (Blames (string_bytes leaf.now.path) (BlockFails certificate.now (string_bytes leaf.now.path) ls (source_at leaf.now.inputs.items) block.now.value)) }
    ensures known { OnOk result (AllByRecursion IsExamined known.new.items) }
{
    let path = leaf.path.as_str();
    let inputs = leaf.inputs.as_slice();
    variables_begin(alloc, certificate, path, inputs, block)?;
    links_lie(alloc, certificate, places, path, inputs, &block.face.inputs)?;
    runs_clear(alloc, certificate, known, path, block)
}

/// The rows of a leaf are clear, among the leaves of its device. Its block is noted for the leaves behind it.
pub(crate) fn leaf_clear<'a>(
    alloc: Global,
    certificate: &Certificate,
    places: &Places,
    known: &mut Vec<Examined<'a>>,
    leaf: &'a Leaf,
) -> Result<(), Unclear>
    requires { AllByRecursion IsExamined known.old.items }
    ensures clears { (ls : List tables.Leaf) (bs : List wires.Leaf) (b : wires.Leaf) → ArePlaces ls places.now → AreLeaves ls bs → AreKnownLeaves bs → IsLeaf leaf.now b → IsKnownLeaf b → OnOk result (LeafClears (certificate_of certificate.now).ranges bs b) }
    ensures refused { (ls : List tables.Leaf) (bs : List wires.Leaf) (b : wires.Leaf) → ArePlaces ls places.now → AreLeaves ls bs → AreKnownLeaves bs → IsLeaf leaf.now b → IsKnownLeaf b → IfErr result (Refuses (LeafFails (certificate_of certificate.now).ranges bs b)) }
    ensures known { OnOk result (AllByRecursion IsExamined known.new.items) }
{
    match &leaf.body {
        Body::Basic(block) => chart_clear(alloc, certificate, places, known, leaf, block),
        Body::Served(_) => Ok(()),
    }
}
