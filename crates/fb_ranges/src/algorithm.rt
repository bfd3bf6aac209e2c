//! Algorithms that are clear, and what algorithms ask.

ghost use Rattle.std.specs.Prelude.{◌≡◌, IfOk, OnOk};
ghost use Rattle.fb_model.specs.Names.{Name};
ghost use Rattle.fb_model.specs.Clear as book;
ghost use Rattle.fb_model.specs.Spans.{joined};
ghost use Rattle.fb_model.specs.Asking.{grown};
ghost use Rattle.st_types.specs.CommandViews.{commands_of};
ghost use Rattle.fb_ranges.specs.Answers.{IsExamined, UnlessMemory, most_steps};
ghost use Rattle.fb_ranges.specs.Finding.{tell};
ghost use Rattle.fb_ranges.specs.Views.{spans_of};

use crate::assigned::names_assigned;
use crate::examination::{Assigning, examine_keeping};
use crate::fault::RangeFault;
use crate::rows::Ranges;
use crate::told::{Told, answer, most};
use fb_faults::OutOfMemory;
use st_types::Algo;
use std::alloc::{AllocError, Global};

// The examination of an algorithm, in a table that has the rows of its variables before and after.
fn examined(
    alloc: Global,
    algo: &Algo,
    rows: &Ranges,
    work: &mut Ranges,
    asked: &mut Ranges,
) -> Result<Told, AllocError>
    requires { spans_of work.old ≡ spans_of rows.now }
    ensures tells { IfOk result (λ told. told ≡ tell (book.examined (spans_of rows.now) (commands_of algo.now.statements.items))) }
    ensures asks { OnOk result ((x : Name) → joined (spans_of asked.new x) (spans_of rows.now x) ≡ joined (spans_of asked.old x) (grown (spans_of rows.now) (commands_of algo.now.statements.items) x)) }
    ensures rest { OnOk result (spans_of work.new ≡ spans_of rows.now) }
{
    let names = names_assigned(alloc, &algo.statements)?;
    let assigning = Assigning {
        names: &names,
        body: &algo.statements,
    };
    examine_keeping(alloc, rows, &assigning, true, work, asked)
}

/// Whether an algorithm is clear under the rows of its variables: run from values in the rows, it neither traps nor leaves them.
///
/// It is examined in `work`, a copy of the rows, which is one again afterwards; what it asks is noted in `asked`, of which nothing is said (another
/// copy of the rows costs least).
///
/// Refused with `Traps` where a divisor may be zero or an index out of bounds, with `Leaves` where a variable may leave its row at the
/// end or around a iteration of a FOR, or an element of an array may leave the array's row at its assignment: the first of these in the text.
/// Where memory runs out, nothing is said of `work`.
pub fn check_algorithm(
    alloc: Global,
    algo: &Algo,
    rows: &Ranges,
    work: &mut Ranges,
    asked: &mut Ranges,
) -> Result<(), RangeFault>
    requires { spans_of work.old ≡ spans_of rows.now }
    ensures answer { IsExamined result (book.examined (spans_of rows.now) (commands_of algo.now.statements.items)) }
    ensures rest { UnlessMemory result (spans_of work.new ≡ spans_of rows.now) }
{
    match examined(alloc, algo, rows, work, asked) {
        Ok(told) => answer(told),
        Err(_) => Err(RangeFault::OutOfMemory),
    }
}

/// The most steps of an algorithm, where it is clear under the rows of its variables and these are no more than 1,000,000,000,000.
///
/// It is examined in `work`, a copy of the rows, which is one again afterwards; what it asks is noted in `asked`, of which nothing is said. Where
/// memory runs out, nothing is said of `work`.
pub fn max_steps(
    alloc: Global,
    algo: &Algo,
    rows: &Ranges,
    work: &mut Ranges,
    asked: &mut Ranges,
) -> Result<Option<u64>, OutOfMemory>
    requires { spans_of work.old ≡ spans_of rows.now }
    ensures answer { IfOk result (λ most. most ≡ most_steps (book.examined (spans_of rows.now) (commands_of algo.now.statements.items))) }
    ensures rest { OnOk result (spans_of work.new ≡ spans_of rows.now) }
{
    match examined(alloc, algo, rows, work, asked) {
        Ok(told) => Ok(most(told)),
        Err(_) => Err(OutOfMemory),
    }
}

/// Enlarges the rows of a table to hold all that an algorithm asks: where it may not be clear under the rows of its variables since a value
/// may leave one, that row and the table's hold it together.
///
/// A division at fault counts as its whole type; an index at fault is passed over.
///
/// It is examined in `work`, a copy of the rows, which is one again afterwards. Where memory runs out, nothing is said of `work` and `asked`.
pub fn grow(
    alloc: Global,
    algo: &Algo,
    rows: &Ranges,
    work: &mut Ranges,
    asked: &mut Ranges,
) -> Result<(), OutOfMemory>
    requires { spans_of work.old ≡ spans_of rows.now }
    ensures asks { OnOk result ((x : Name) → joined (spans_of asked.new x) (spans_of rows.now x) ≡ joined (spans_of asked.old x) (grown (spans_of rows.now) (commands_of algo.now.statements.items) x)) }
    ensures rest { OnOk result (spans_of work.new ≡ spans_of rows.now) }
{
    match examined(alloc, algo, rows, work, asked) {
        Ok(_) => Ok(()),
        Err(_) => Err(OutOfMemory),
    }
}
