//! The variables that a way may touch.

ghost use Rattle.std.specs.Prelude.{◌≡◌, ◌++◌, IfOk, OnOk, map};
ghost use Rattle.fb_model.specs.Clear as book;
ghost use Rattle.st_types.specs.Views.{term_of, tail_of};
ghost use Rattle.st_types.specs.CommandViews.{commands_of};
ghost use Rattle.fb_ranges.specs.Views.{names_of};
ghost use Rattle.fb_ranges.specs.Narrowing.{read_behind, read_in};

use crate::assigned::{assigned, pushed};
use st_types::{TypedExpr, TypedLink, TypedStmt, VariableName};
use std::alloc::{AllocError, Global};

/// The variables that a condition reads, and those that statements assign.
pub(crate) fn names_touched<'a>(
    alloc: Global,
    condition: &'a TypedExpr,
    body: &'a [TypedStmt],
) -> Result<Vec<&'a VariableName>, AllocError>
    ensures { IfOk result (λ names. names_of names.items ≡ read_in (term_of condition.now) ++ book.assigned (commands_of body.now)) }
{
    let mut names = Vec::new(alloc);
    add_read(condition, &mut names)?;
    assigned(body, &mut names)?;
    Ok(names)
}

// Adds the variables that an expression reads to others.
#[cycle(reading)]
fn add_read<'a>(expr: &'a TypedExpr, names: &mut Vec<&'a VariableName>) -> Result<(), AllocError>
    ensures { OnOk result (names_of names.new.items ≡ names_of names.old.items ++ read_in (term_of expr.now)) }
{
    match expr {
        TypedExpr::Constant(_) | TypedExpr::Element(_, _, _, _) => Ok(()),
        TypedExpr::Read(name) => pushed(name, names),
        TypedExpr::Unary(_, _, operand) => add_read(operand, names),
        TypedExpr::Chain(first, links) => {
            add_read(first, names)?;
            add_read_behind(links, names)
        }
    }
}

#[cycle(reading)]
fn add_read_behind<'a>(
    links: &'a [TypedLink],
    names: &mut Vec<&'a VariableName>,
) -> Result<(), AllocError>
    ensures { OnOk result (names_of names.new.items ≡ names_of names.old.items ++ read_behind (map tail_of links.now)) }
{
    for link in links {
        add_read(&link.operand, names)?;
    }
    Ok(())
}
