//! The variables that statements assign.

ghost use Rattle.std.specs.Prelude.{◌≡◌, ◌++◌, ◌∷◌, [], IfOk, OnOk, string_bytes};
ghost use Rattle.fb_model.specs.Clear as book;
ghost use Rattle.st_types.specs.Views.{term_of};
ghost use Rattle.st_types.specs.CommandViews.{cases_of, choices_of, command_of, commands_of};
ghost use Rattle.fb_ranges.specs.Views.{names_of};

use crate::side::number;
use fb_ranges_intervals::iterations;
use st_types::{Counting, TypedArm, TypedBranch, TypedStmt, VariableName};
use std::alloc::{AllocError, Global};

// Whether a FOR between two spelled numbers has no iteration.
fn is_idle(counting: &Counting) -> bool
    ensures { result ≡ book.is_idle counting.now.plain (term_of counting.now.first) (term_of counting.now.last) counting.now.step }
{
    if !counting.plain {
        return false;
    }
    match (number(&counting.first), number(&counting.last)) {
        (Some(first), Some(last)) => iterations(first, last, counting.step) == 0,
        _ => false,
    }
}

/// One more variable.
pub(crate) fn pushed<'a>(
    name: &'a VariableName,
    names: &mut Vec<&'a VariableName>,
) -> Result<(), AllocError>
    ensures { OnOk result (names_of names.new.items ≡ names_of names.old.items ++ string_bytes name.now.name ∷ []) }
{
    names.push(name)?;
    Ok(())
}

/// The variables that statements assign, as they stand in the text: the own variable of each FOR too, but of one between two spelled numbers
/// that has no iteration.
pub fn names_assigned(alloc: Global, list: &[TypedStmt]) -> Result<Vec<&VariableName>, AllocError>
    ensures { IfOk result (λ names. names_of names.items ≡ book.assigned (commands_of list.now)) }
{
    let mut names = Vec::new(alloc);
    assigned(list, &mut names)?;
    Ok(names)
}

/// Adds the variables that statements assign to others.
#[cycle(assigning)]
pub(crate) fn assigned<'a>(
    list: &'a [TypedStmt],
    names: &mut Vec<&'a VariableName>,
) -> Result<(), AllocError>
    ensures { OnOk result (names_of names.new.items ≡ names_of names.old.items ++ book.assigned (commands_of list.now)) }
{
    for statement in list {
        assigned_one(statement, names)?;
    }
    Ok(())
}

#[cycle(assigning)]
fn assigned_one<'a>(
    statement: &'a TypedStmt,
    names: &mut Vec<&'a VariableName>,
) -> Result<(), AllocError>
    ensures { OnOk result (names_of names.new.items ≡ names_of names.old.items ++ book.assigned_one (command_of statement.now)) }
{
    match statement {
        TypedStmt::Set(name, _) => pushed(name, names),
        TypedStmt::SetElement(_, _, _, _, _) => Ok(()),
        TypedStmt::If(branches, other) => {
            assigned_branches(branches, names)?;
            assigned(other, names)
        }
        TypedStmt::Case(_, arms, other) => {
            assigned_arms(arms, names)?;
            assigned(other, names)
        }
        TypedStmt::For(counting, body) => {
            if is_idle(counting) {
                return assigned(body, names);
            }
            pushed(&counting.variable, names)?;
            assigned(body, names)
        }
    }
}

#[cycle(assigning)]
fn assigned_branches<'a>(
    list: &'a [TypedBranch],
    names: &mut Vec<&'a VariableName>,
) -> Result<(), AllocError>
    ensures { OnOk result (names_of names.new.items ≡ names_of names.old.items ++ book.assigned_choices (choices_of list.now)) }
{
    for branch in list {
        assigned(&branch.body, names)?;
    }
    Ok(())
}

#[cycle(assigning)]
fn assigned_arms<'a>(
    list: &'a [TypedArm],
    names: &mut Vec<&'a VariableName>,
) -> Result<(), AllocError>
    ensures { OnOk result (names_of names.new.items ≡ names_of names.old.items ++ book.assigned_cases (cases_of list.now)) }
{
    for arm in list {
        assigned(&arm.body, names)?;
    }
    Ok(())
}
