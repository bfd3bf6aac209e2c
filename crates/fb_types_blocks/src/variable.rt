//! Variables: their types, bounds and start values.

ghost use Rattle.std.specs.Prelude.{◌≡◌, ◌≤◌, ◌++◌, ℕ, suc, pos, ◌+ℤ◌, Some, map, length, MatchOption, IfOk, IfErr, OnOk};
ghost use Rattle.fb_model.specs.BlockTyping.{AreBounds, IsStart, AreDeclared, words_in, names_in, declared};
ghost use Rattle.fb_model.specs.Typing.{texts, AreNew, AreDistinct};
ghost use Rattle.fb_tree.specs.Words.{word_of};
ghost use Rattle.fb_tree.specs.Words as read;
ghost use Rattle.fb_tree.specs.Files as tree;
ghost use Rattle.fb_model.specs.BlockFaults.{place_of};
ghost use Rattle.fb_types_blocks.specs.Views.{names_of, declared_in};
ghost use Rattle.fb_model.specs.BlockFaults.{IsRepetition, IsExcess, IsBoundsFault, IsBoundsFaultIfSome, IsStartFault, IsVariableFault, Among};

use crate::names::{add, at_most, declare};
use crate::number::{bound, constant};
use crate::typed::{Variable, Variables};
use fb_faults::TypeFault;
use fb_tree::{BoundsTree, Name, StartTree, VariableTree};
use fb_words::ElemType;
use indexmap::{IndexMap, IndexSet};
use std::alloc::{AllocError, Global};

/// The most elements of an array.
pub const ELEMENTS: u64 = 1024;

// How far the second number lies above the first, or nothing where it lies below.
fn reach(low: i64, high: i64) -> Option<u64>
    ensures { MatchOption result ((n : ℕ) × (low ≡ high +ℤ pos (suc n))) (λ n. high ≡ low +ℤ pos n) }
{
    if high < low {
        return None;
    }
    Some((i128::from(high) - i128::from(low)) as u64)
}

// The bounds of an array, whose name stands at a place.
fn bounds(source: &BoundsTree, at: usize) -> Result<(i64, i64), TypeFault>
    ensures found { IfOk result (λ b. AreBounds (Some (tree.bounds_of source.now)) (Some b)) }
    ensures refused { IfErr result (IsBoundsFault at (tree.bounds_of source.now)) }
{
    let low = bound(&source.low)?;
    let high = bound(&source.high)?;
    let Some(distance) = reach(low, high) else {
        return Err(TypeFault::BadLiteral(source.high.at));
    };
    if distance >= ELEMENTS {
        return Err(TypeFault::Limit(at));
    }
    Ok((low, high))
}

// The same of bounds that may be left out.
fn bounds_if_some(
    source: &Option<BoundsTree>,
    names: &[Name],
) -> Result<Option<(i64, i64)>, TypeFault>
    ensures found { IfOk result (AreBounds (read.optional tree.bounds_of source.now)) }
    ensures refused { IfErr result (IsBoundsFaultIfSome (map word_of names.now) (read.optional tree.bounds_of source.now)) }
{
    match source {
        Some(source) => {
            let at = place(names, source.high.at);
            Ok(Some(bounds(source, at)?))
        }
        None => Ok(None),
    }
}

// The place of the first name, or another one where there is none.
fn place(names: &[Name], other: usize) -> usize
    ensures { result ≡ place_of (map word_of names.now) other }
{
    match names.first() {
        Some(name) => name.at,
        None => other,
    }
}

// The start value of a variable of a type.
fn start(of: ElemType, source: &Option<StartTree>) -> Result<Option<i64>, TypeFault>
    ensures found { IfOk result (IsStart of (read.optional tree.start_of source.now)) }
    ensures refused { IfErr result (IsStartFault of (read.optional tree.start_of source.now)) }
{
    match source {
        Some(source) => Ok(Some(constant(of, source.at, &source.value)?)),
        None => Ok(None),
    }
}

// What the names of a declaration stand for.
fn variable(source: &VariableTree) -> Result<Variable, TypeFault>
    ensures of_type { IfOk result (λ v. v.of_type ≡ source.now.of_type) }
    ensures bounds { IfOk result (λ v. AreBounds (tree.variable_of source.now).bounds v.bounds) }
    ensures start { IfOk result (λ v. IsStart source.now.of_type (tree.variable_of source.now).start v.start) }
    ensures refused { IfErr result (IsVariableFault (tree.variable_of source.now)) }
{
    let bounds = bounds_if_some(&source.bounds, &source.names)?;
    let start = start(source.of_type, &source.start)?;
    Ok(Variable {
        of_type: source.of_type,
        bounds,
        start,
    })
}

// Adds variables of these new names at the end.
fn share(variables: &mut Variables, names: &[Name], variable: Variable) -> Result<(), AllocError>
    requires { AreNew (names_in (declared_in variables.old)) (texts (map word_of names.now)) }
    ensures { OnOk result (declared_in variables.new ≡ declared_in variables.old ++ map (declared variable.of_type variable.bounds variable.start) (map word_of names.now)) }
{
    for name in names {
        add(variables, &name.text, variable)?;
    }
    Ok(())
}

/// The variables of declarations, whose names are all different.
pub(crate) fn variables(alloc: Global, sources: &[VariableTree]) -> Result<Variables, TypeFault>
    requires { AreDistinct (texts (words_in (map tree.variable_of sources.now))) }
    ensures found { IfOk result (λ v. AreDeclared (map tree.variable_of sources.now) (declared_in v)) }
    ensures refused { IfErr result (Among IsVariableFault (map tree.variable_of sources.now)) }
{
    let mut variables = IndexMap::new(alloc);
    for source in sources {
        let variable = variable(source)?;
        share(&mut variables, &source.names, variable)?;
    }
    Ok(variables)
}

/// Adds the names of variables at the end. No name may be there before.
pub(crate) fn declare_variables(
    names: &mut IndexSet<String>,
    sources: &[VariableTree],
) -> Result<(), TypeFault>
    ensures new { OnOk result (AreNew (names_of names.old) (texts (words_in (map tree.variable_of sources.now)))) }
    ensures added { OnOk result (names_of names.new ≡ names_of names.old ++ texts (words_in (map tree.variable_of sources.now))) }
    ensures refused { IfErr result (IsRepetition (names_of names.old) (words_in (map tree.variable_of sources.now))) }
{
    for source in sources {
        declare(names, &source.names)?;
    }
    Ok(())
}

/// Refuses more variables than `most`, at the name of the first one too many.
pub(crate) fn few_variables(sources: &[VariableTree], most: usize) -> Result<(), TypeFault>
    ensures few { OnOk result (length (words_in (map tree.variable_of sources.now)) ≤ most) }
    ensures refused { IfErr result (IsExcess most (words_in (map tree.variable_of sources.now))) }
{
    let mut left = most;
    for source in sources {
        at_most(&source.names, left)?;
        left -= source.names.len();
    }
    Ok(())
}
