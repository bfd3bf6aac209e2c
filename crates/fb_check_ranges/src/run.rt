//! Algorithms and guards under the rows of their variables.

ghost use Rattle.std.specs.Prelude.{◌≡◌, OnOk, string_bytes};
ghost use Rattle.fb_model.specs.Ranges.{IsClearAlgorithm, IsClearGuard};
ghost use Rattle.st_types.specs.CommandViews.{commands_of};
ghost use Rattle.fb_ranges.specs.Views.{spans_of};
ghost use Rattle.fb_check_ranges.specs.Reasons.{Names, NamesOne};
ghost use Rattle.fb_check_ranges.specs.Clearing.{AlgorithmFails, procedure_name, procedure_text, guard_in};
ghost use Rattle.fb_model.specs.Misfits.{GuardFails};

use fb_faults::Unclear;
use fb_flat::joined;
use fb_ranges::{RangeFault, Ranges, check_algorithm, check_guard, copied};
use fb_types_blocks::Transition;
use indexmap::IndexMap;
use st_types::Algo;
use std::alloc::Global;

// An algorithm of a block, with its name.
#[derive(Clone, Copy)]
struct NamedAlgo<'a> {
    name: &'a str,
    algo: &'a Algo,
}

// An algorithm is clear, by an examination in a copy of the rows.
fn algorithm_clear(
    alloc: Global,
    path: &str,
    rows: &Ranges,
    work: &mut Ranges,
    asked: &mut Ranges,
    named: &NamedAlgo,
) -> Result<(), Unclear>
    requires { spans_of work.old ≡ spans_of rows.now }
    ensures answer { Names path.now named.now.name.now (IsClearAlgorithm (spans_of rows.now) (commands_of named.now.algo.now.statements.items)) (AlgorithmFails (spans_of rows.now) (commands_of named.now.algo.now.statements.items)) result }
    ensures rest { OnOk result (spans_of work.new ≡ spans_of rows.now) }
{
    match check_algorithm(alloc, named.algo, rows, work, asked) {
        Ok(()) => Ok(()),
        Err(RangeFault::Leaves) => Err(Unclear::Kept(joined(alloc, path, named.name)?)),
        Err(RangeFault::Traps) => Err(Unclear::IndexOrDivisor(joined(alloc, path, named.name)?)),
        Err(RangeFault::OutOfMemory) => Err(Unclear::OutOfMemory),
    }
}

/// All algorithms are clear.
pub(crate) fn algorithms_clear(
    alloc: Global,
    path: &str,
    rows: &Ranges,
    procedures: &IndexMap<String, Algo>,
) -> Result<(), Unclear>
    ensures { NamesOne path.now procedure_name (λ p. IsClearAlgorithm (spans_of rows.now) (procedure_text p)) (λ p. AlgorithmFails (spans_of rows.now) (procedure_text p)) procedures.now.entries result }
{
    let mut work = copied(rows)?;
    let mut asked = copied(rows)?;
    for index in 0..procedures.len() {
        let Some((name, algo)) = procedures.get_index(index) else {
            return Ok(());
        };
        algorithm_clear(
            alloc,
            path,
            rows,
            &mut work,
            &mut asked,
            &NamedAlgo {
                name: name.as_str(),
                algo,
            },
        )?;
    }
    Ok(())
}

// A guard is clear, if there is one.
fn guard_clear(
    alloc: Global,
    path: &str,
    rows: &Ranges,
    transition: &Transition,
) -> Result<(), Unclear>
    ensures { Names path.now (string_bytes transition.now.source) (IsClearGuard (spans_of rows.now) (guard_in transition.now)) (GuardFails (spans_of rows.now) (guard_in transition.now)) result }
{
    match &transition.guard {
        None => Ok(()),
        Some(guard) => match check_guard(alloc, guard, rows) {
            Ok(()) => Ok(()),
            Err(_) => {
                let source = transition.source.as_str();
                Err(Unclear::IndexOrDivisor(joined(alloc, path, source)?))
            }
        },
    }
}

/// All guards are clear.
pub(crate) fn guards_clear(
    alloc: Global,
    path: &str,
    rows: &Ranges,
    transitions: &[Transition],
) -> Result<(), Unclear>
    ensures { NamesOne path.now (λ t. string_bytes t.source) (λ t. IsClearGuard (spans_of rows.now) (guard_in t)) (λ t. GuardFails (spans_of rows.now) (guard_in t)) transitions.now result }
{
    for transition in transitions {
        guard_clear(alloc, path, rows, transition)?;
    }
    Ok(())
}
