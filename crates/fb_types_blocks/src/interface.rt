//! Interfaces of blocks.

ghost use Rattle.std.specs.Prelude.{◌≡◌, ◌≤◌, ◌++◌, [], List, map, length, IfOk, IfErr, OnOk};
ghost use Rattle.std.specs.List.{AllByRecursion};
ghost use Rattle.fb_model.specs.System as book;
ghost use Rattle.fb_model.specs.BlockTyping.{Declared, IsFace, AreDeclared, AreKnown, typed_event, face_names, words_in};
ghost use Rattle.fb_model.specs.Typing.{texts, AreNew, AreDistinct};
ghost use Rattle.fb_tree.specs.Files as tree;
ghost use Rattle.fb_types_blocks.specs.Answers.{Finds, names_in_map};
ghost use Rattle.fb_model.specs.BlockFaults.{event_words, own_words};
ghost use Rattle.fb_types_blocks.specs.Views.{names_of, declared_in, events_of, face_of};
ghost use Rattle.fb_model.specs.BlockFaults.{IsRepetition, IsFaceFault};

use crate::event::events;
use crate::names::{at_most, declare};
use crate::typed::{Events, Face, Variables};
use crate::variable::{declare_variables, few_variables, variables};
use fb_faults::TypeFault;
use fb_tree::{BlockTree, EventTree, VariableTree};
use indexmap::IndexSet;
use std::alloc::Global;

/// The most event inputs of a block, and the most event outputs, inputs and outputs.
pub const PORTS: usize = 64;

// Refuses what an interface has too many of.
fn limits(source: &BlockTree) -> Result<(), TypeFault>
    ensures few_event_inputs { OnOk result (length source.now.event_inputs.items ≤ PORTS) }
    ensures few_event_outputs { OnOk result (length source.now.event_outputs.items ≤ PORTS) }
    ensures few_inputs { OnOk result (length (words_in (tree.block_of source.now).inputs) ≤ PORTS) }
    ensures few_outputs { OnOk result (length (words_in (tree.block_of source.now).outputs) ≤ PORTS) }
    ensures refused { IfErr result (IsFaceFault (tree.block_of source.now)) }
{
    at_most(&source.event_inputs, PORTS)?;
    at_most(&source.event_outputs, PORTS)?;
    few_variables(&source.inputs, PORTS)?;
    few_variables(&source.outputs, PORTS)
}

// Adds the names of event inputs and event outputs at the end.
fn declare_events(
    names: &mut IndexSet<String>,
    inputs: &[EventTree],
    outputs: &[EventTree],
) -> Result<(), TypeFault>
    ensures new { OnOk result (AreNew (names_of names.old) (texts (event_words (map tree.event_of inputs.now) ++ event_words (map tree.event_of outputs.now)))) }
    ensures added { OnOk result (names_of names.new ≡ names_of names.old ++ texts (event_words (map tree.event_of inputs.now) ++ event_words (map tree.event_of outputs.now))) }
    ensures refused { IfErr result (IsRepetition (names_of names.old) (event_words (map tree.event_of inputs.now) ++ event_words (map tree.event_of outputs.now))) }
{
    declare(names, inputs)?;
    declare(names, outputs)
}

// Adds the names of data inputs and data outputs at the end.
fn declare_ports(
    names: &mut IndexSet<String>,
    inputs: &[VariableTree],
    outputs: &[VariableTree],
) -> Result<(), TypeFault>
    ensures new { OnOk result (AreNew (names_of names.old) (texts (words_in (map tree.variable_of inputs.now) ++ words_in (map tree.variable_of outputs.now)))) }
    ensures added { OnOk result (names_of names.new ≡ names_of names.old ++ texts (words_in (map tree.variable_of inputs.now) ++ words_in (map tree.variable_of outputs.now))) }
    ensures refused { IfErr result (IsRepetition (names_of names.old) (words_in (map tree.variable_of inputs.now) ++ words_in (map tree.variable_of outputs.now))) }
{
    declare_variables(names, inputs)?;
    declare_variables(names, outputs)
}

/// The table of the names of an interface, in text order, which are all different.
pub(crate) fn own_names(alloc: Global, source: &BlockTree) -> Result<IndexSet<String>, TypeFault>
    ensures distinct { OnOk result (AreDistinct (texts (own_words (tree.block_of source.now)))) }
    ensures names { IfOk result (λ t. names_of t ≡ texts (own_words (tree.block_of source.now))) }
    ensures refused { IfErr result (IsRepetition [] (own_words (tree.block_of source.now))) }
{
    let mut names = IndexSet::new(alloc);
    declare_events(&mut names, &source.event_inputs, &source.event_outputs)?;
    declare_ports(&mut names, &source.inputs, &source.outputs)?;
    Ok(names)
}

// The inputs and the outputs of a block whose names are all different.
fn data_ports(alloc: Global, source: &BlockTree) -> Result<(Variables, Variables), TypeFault>
    requires { AreDistinct (texts (own_words (tree.block_of source.now))) }
    ensures inputs { IfOk result (λ r. AreDeclared (tree.block_of source.now).inputs (declared_in r.0)) }
    ensures outputs { IfOk result (λ r. AreDeclared (tree.block_of source.now).outputs (declared_in r.1)) }
    ensures refused { IfErr result (IsFaceFault (tree.block_of source.now)) }
{
    let inputs = variables(alloc, &source.inputs)?;
    let outputs = variables(alloc, &source.outputs)?;
    Ok((inputs, outputs))
}

// The event inputs and the event outputs of a block with these inputs and outputs, whose names are all different.
fn event_ports(
    alloc: Global,
    source: &BlockTree,
    inputs: &Variables,
    outputs: &Variables,
) -> Result<(Events, Events), TypeFault>
    requires distinct { AreDistinct (texts (own_words (tree.block_of source.now))) }
    requires inputs { AreDeclared (tree.block_of source.now).inputs (declared_in inputs.now) }
    requires outputs { AreDeclared (tree.block_of source.now).outputs (declared_in outputs.now) }
    ensures takes { OnOk result (AllByRecursion (λ e. AreKnown (names_in_map inputs.now) e.carries) (tree.block_of source.now).event_inputs) }
    ensures gives { OnOk result (AllByRecursion (λ e. AreKnown (names_in_map outputs.now) e.carries) (tree.block_of source.now).event_outputs) }
    ensures event_inputs { IfOk result (λ r. events_of r.0 ≡ map typed_event (tree.block_of source.now).event_inputs) }
    ensures event_outputs { IfOk result (λ r. events_of r.1 ≡ map typed_event (tree.block_of source.now).event_outputs) }
    ensures refused { IfErr result (IsFaceFault (tree.block_of source.now)) }
{
    let event_inputs = events(alloc, inputs, &source.event_inputs)?;
    let event_outputs = events(alloc, outputs, &source.event_outputs)?;
    Ok((event_inputs, event_outputs))
}

/// The interface of a block whose names are all different.
pub(crate) fn ports(alloc: Global, source: &BlockTree) -> Result<Face, TypeFault>
    requires { AreDistinct (texts (own_words (tree.block_of source.now))) }
    ensures found { IfOk result (λ f. IsFace (tree.block_of source.now) (declared_in f.inputs) (declared_in f.outputs) (face_of f)) }
    ensures refused { IfErr result (IsFaceFault (tree.block_of source.now)) }
{
    limits(source)?;
    let (inputs, outputs) = data_ports(alloc, source)?;
    let (event_inputs, event_outputs) = event_ports(alloc, source, &inputs, &outputs)?;
    Ok(Face {
        event_inputs,
        event_outputs,
        inputs,
        outputs,
    })
}

/// The interface of a block.
///
/// Refused with `Limit` at the 65th name of a kind and at the name of an array of more than 1,024 elements, with `DuplicateName` at a name
/// that an event or a variable of the interface has already, with `UnknownName` at a name after WITH that is no variable of the event's
/// direction, with `TypeMismatch` at the `:=` of a start value of another type, and with `BadLiteral` at a start value that does not fit
/// and at a bound that is no LINT number or below the one before it.
pub fn face(alloc: Global, source: &BlockTree) -> Result<Face, TypeFault>
    ensures found { IfOk result (λ f. IsFace (tree.block_of source.now) (declared_in f.inputs) (declared_in f.outputs) (face_of f)) }
    ensures distinct { IfOk result (λ f. AreDistinct (face_names (tree.block_of source.now) (declared_in f.inputs) (declared_in f.outputs))) }
    ensures only { (ins outs : List Declared) (f : book.Face) → IsFace (tree.block_of source.now) ins outs f → AreDistinct (face_names (tree.block_of source.now) ins outs) → Finds face_of result f }
    ensures refused { IfErr result (IsFaceFault (tree.block_of source.now)) }
{
    own_names(alloc, source)?;
    ports(alloc, source)
}
