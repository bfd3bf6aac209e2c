//! Basic blocks.

ghost use Rattle.std.specs.Prelude.{◌≡◌, ◌≤◌, ◌++◌, [], map, length, IfOk, IfErr, OnOk};
ghost use Rattle.fb_model.specs.System as book;
ghost use Rattle.fb_model.specs.BlockTyping.{IsBasic, IsFace, AreDeclared, scope, names_in, words_in, algorithm_texts};
ghost use Rattle.fb_model.specs.Typing.{texts, AreDistinct, state_texts};
ghost use Rattle.fb_tree.specs.Files as tree;
ghost use Rattle.fb_types_blocks.specs.Answers.{Finds, IsTypedBlock, IsChart, names_in_map};
ghost use Rattle.fb_model.specs.BlockFaults.{own_words};
ghost use Rattle.fb_types_blocks.specs.Views.{block_of, declared_in, face_of, states_of, transition_of, procedures_of};
ghost use Rattle.fb_model.specs.BlockFaults.{IsChartExcess, IsChartFault, IsBasicFault};

use crate::chart::control_chart;
use crate::interface::{own_names, ports};
use crate::names::{at_most, table};
use crate::scope::scope;
use crate::typed::{Block, ControlChart, Face, Variables};
use crate::variable::{declare_variables, variables};
use fb_faults::TypeFault;
use fb_tree::{BlockTree, ChartTree};
use std::alloc::Global;

/// The most states of a block.
pub const STATES: usize = 256;

/// The most transitions of a block.
pub const TRANSITIONS: usize = 1024;

/// The most algorithms of a block.
pub const ALGORITHMS: usize = 256;

// Refuses what a chart has too many of.
fn limits(chart: &ChartTree) -> Result<(), TypeFault>
    ensures few_states { OnOk result (length chart.now.states.items ≤ STATES) }
    ensures few_transitions { OnOk result (length chart.now.transitions.items ≤ TRANSITIONS) }
    ensures few_algorithms { OnOk result (length chart.now.algorithms.items ≤ ALGORITHMS) }
    ensures refused { IfErr result (IsChartExcess (tree.chart_of chart.now)) }
{
    at_most(&chart.states, STATES)?;
    at_most(&chart.transitions, TRANSITIONS)?;
    at_most(&chart.algorithms, ALGORITHMS)
}

// Refuses a name of the interface or of an internal variable that stands for two things.
fn names_apart(alloc: Global, source: &BlockTree, chart: &ChartTree) -> Result<(), TypeFault>
    ensures names { OnOk result (AreDistinct (texts (own_words (tree.block_of source.now) ++ words_in (tree.chart_of chart.now).internals))) }
    ensures refused { IfErr result (IsBasicFault (tree.block_of source.now) (tree.chart_of chart.now)) }
{
    let mut names = own_names(alloc, source)?;
    declare_variables(&mut names, &chart.internals)
}

// Refuses a name that stands for two things of one name space.
fn apart(alloc: Global, source: &BlockTree, chart: &ChartTree) -> Result<(), TypeFault>
    ensures names { OnOk result (AreDistinct (texts (own_words (tree.block_of source.now) ++ words_in (tree.chart_of chart.now).internals))) }
    ensures states { OnOk result (AreDistinct (state_texts (tree.chart_of chart.now).states)) }
    ensures algorithms { OnOk result (AreDistinct (algorithm_texts (tree.chart_of chart.now).algorithms)) }
    ensures refused { IfErr result (IsBasicFault (tree.block_of source.now) (tree.chart_of chart.now)) }
{
    names_apart(alloc, source, chart)?;
    table(alloc, &chart.states)?;
    table(alloc, &chart.algorithms)?;
    Ok(())
}

// Ends an interface.
fn end_of(face: Face) {}

// What a block declares, whose names are all different: its interface, and its internal variables.
fn declared(
    alloc: Global,
    source: &BlockTree,
    chart: &ChartTree,
) -> Result<(Face, Variables), TypeFault>
    requires { AreDistinct (texts (own_words (tree.block_of source.now) ++ words_in (tree.chart_of chart.now).internals)) }
    ensures face { IfOk result (λ r. IsFace (tree.block_of source.now) (declared_in r.0.inputs) (declared_in r.0.outputs) (face_of r.0)) }
    ensures internals { IfOk result (λ r. AreDeclared (tree.chart_of chart.now).internals (declared_in r.1)) }
    ensures refused { IfErr result (IsBasicFault (tree.block_of source.now) (tree.chart_of chart.now)) }
{
    let face = ports(alloc, source)?;
    match variables(alloc, &chart.internals) {
        Ok(internals) => Ok((face, internals)),
        Err(fault) => {
            end_of(face);
            Err(fault)
        }
    }
}

// The chart of a block with this interface and these internal variables.
fn chart_within(
    alloc: Global,
    face: &Face,
    internals: &Variables,
    chart: &ChartTree,
) -> Result<ControlChart, TypeFault>
    requires names { AreDistinct (names_in (declared_in face.now.inputs) ++ names_in (declared_in face.now.outputs) ++ names_in (declared_in internals.now)) }
    requires states { AreDistinct (state_texts (tree.chart_of chart.now).states) }
    requires algorithms { AreDistinct (algorithm_texts (tree.chart_of chart.now).algorithms) }
    ensures found { IfOk result (λ k. IsChart (scope (declared_in face.now.inputs) (declared_in face.now.outputs) (declared_in internals.now)) (names_in_map face.now.event_inputs) (names_in_map face.now.event_outputs) (tree.chart_of chart.now) (states_of k.states) (map transition_of k.transitions.items) (procedures_of k.procedures)) }
    ensures refused { IfErr result (IsChartFault (scope (declared_in face.now.inputs) (declared_in face.now.outputs) (declared_in internals.now)) (names_in_map face.now.event_inputs) (names_in_map face.now.event_outputs) (tree.chart_of chart.now)) }
{
    let scope = scope(alloc, &face.inputs, &face.outputs, internals)?;
    control_chart(alloc, &scope, face, chart)
}

// A basic block, by its parts.
fn block(alloc: Global, source: &BlockTree, chart: &ChartTree) -> Result<Block, TypeFault>
    ensures found { IfOk result (IsTypedBlock (tree.block_of source.now) (tree.chart_of chart.now)) }
    ensures refused { IfErr result (IsBasicFault (tree.block_of source.now) (tree.chart_of chart.now)) }
{
    limits(chart)?;
    apart(alloc, source, chart)?;
    let (face, internals) = declared(alloc, source, chart)?;
    match chart_within(alloc, &face, &internals, chart) {
        Ok(control) => Ok(Block {
            face,
            internals,
            states: control.states,
            transitions: control.transitions,
            procedures: control.procedures,
        }),
        Err(fault) => {
            end_of(face);
            Err(fault)
        }
    }
}

/// A basic block.
///
/// Refused as `face` and the typing of Structured Text; with `Limit` at the 257th state and algorithm and at the state that the 1,025th
/// transition leaves; with `DuplicateName` also at the later name of an internal variable, a state or an algorithm; and with `UnknownName`
/// also at a name in an action or a transition that stands for nothing of its kind.
pub fn basic(alloc: Global, source: &BlockTree, chart: &ChartTree) -> Result<Block, TypeFault>
    ensures found { IfOk result (IsTypedBlock (tree.block_of source.now) (tree.chart_of chart.now)) }
    ensures only { (k : book.Block) → IsBasic (tree.block_of source.now) (tree.chart_of chart.now) k → Finds block_of result k }
    ensures refused { IfErr result (IsBasicFault (tree.block_of source.now) (tree.chart_of chart.now)) }
{
    block(alloc, source, chart)
}
