//! Statements with slots.

ghost use Rattle.std.specs.Prelude.{◌≡◌, true, map, IfOk};
ghost use Rattle.st_types.specs.CommandViews.{counting_of, command_of, commands_of, case_of, choice_of};
ghost use Rattle.st_exec.specs.CodeViews.{code_counting, code_command, code_commands, code_case, code_choice};
ghost use Rattle.st_exec.specs.Placed.{placed_counting, placed_stmt, placed_arm, placed_branch, placed_all, all_true};

use crate::command::{CodeArm, CodeBranch, CodeCounting, CodeStmt, Procedure};
use crate::expression::coded_term;
use crate::layout::Layout;
use st_types::{Algo, Counting, TypedArm, TypedBranch, TypedStmt};
use std::alloc::{AllocError, Global};

// How a FOR counts, with slots.
fn coded_counting(
    alloc: Global,
    layout: &Layout,
    counting: &Counting,
) -> Result<CodeCounting, AllocError>
    ensures same { IfOk result (λ coded. code_counting coded ≡ counting_of counting.now) }
    ensures slots { IfOk result (λ coded. placed_counting layout.now coded ≡ true) }
{
    let slot = layout.plain_slot(counting.variable.as_str());
    Ok(CodeCounting {
        variable: counting.variable.name.clone()?,
        slot,
        of_type: counting.of_type,
        first: coded_term(alloc, layout, &counting.first)?,
        last: coded_term(alloc, layout, &counting.last)?,
        step: counting.step,
        plain: counting.plain,
    })
}

// The same labels.
fn copied(alloc: Global, labels: &[(i64, i64)]) -> Result<Vec<(i64, i64)>, AllocError>
    ensures { IfOk result (λ copied. copied.items ≡ labels.now) }
{
    Ok(Vec::from_slice(alloc, labels)?)
}

#[cycle(writing)]
fn coded_statement(
    alloc: Global,
    layout: &Layout,
    statement: &TypedStmt,
) -> Result<CodeStmt, AllocError>
    ensures same { IfOk result (λ coded. code_command coded ≡ command_of statement.now) }
    ensures slots { IfOk result (λ coded. placed_stmt layout.now coded ≡ true) }
{
    match statement {
        TypedStmt::Set(name, value) => {
            let slot = layout.plain_slot(name.as_str());
            let value = coded_term(alloc, layout, value)?;
            Ok(CodeStmt::Set(name.name.clone()?, slot, value))
        }
        TypedStmt::SetElement(name, low, high, index, value) => {
            let slot = layout.slot(name.as_str());
            let index = coded_term(alloc, layout, index)?;
            let value = coded_term(alloc, layout, value)?;
            Ok(CodeStmt::SetElement(name.name.clone()?, slot, *low, *high, index, value))
        }
        TypedStmt::If(branches, other) => {
            let branches = coded_branches(alloc, layout, branches)?;
            Ok(CodeStmt::If(branches, coded_list(alloc, layout, other)?))
        }
        TypedStmt::Case(selector, arms, other) => {
            let selector = coded_term(alloc, layout, selector)?;
            let arms = coded_arms(alloc, layout, arms)?;
            Ok(CodeStmt::Case(selector, arms, coded_list(alloc, layout, other)?))
        }
        TypedStmt::For(counting, body) => {
            let counting = coded_counting(alloc, layout, counting)?;
            Ok(CodeStmt::For(counting, coded_list(alloc, layout, body)?))
        }
    }
}

// Statements with slots, in order.
#[cycle(writing)]
fn coded_list(
    alloc: Global,
    layout: &Layout,
    list: &[TypedStmt],
) -> Result<Vec<CodeStmt>, AllocError>
    ensures same { IfOk result (λ coded. map code_command coded.items ≡ map command_of list.now) }
    ensures slots { IfOk result (λ coded. all_true (map (placed_stmt layout.now) coded.items) ≡ true) }
{
    let mut coded = Vec::new(alloc);
    for statement in list {
        coded.push(coded_statement(alloc, layout, statement)?)?;
    }
    Ok(coded)
}

// Branches with slots, in order.
#[cycle(writing)]
fn coded_branches(
    alloc: Global,
    layout: &Layout,
    list: &[TypedBranch],
) -> Result<Vec<CodeBranch>, AllocError>
    ensures same { IfOk result (λ coded. map code_choice coded.items ≡ map choice_of list.now) }
    ensures slots { IfOk result (λ coded. all_true (map (placed_branch layout.now) coded.items) ≡ true) }
{
    let mut coded = Vec::new(alloc);
    for branch in list {
        let condition = coded_term(alloc, layout, &branch.condition)?;
        let body = coded_list(alloc, layout, &branch.body)?;
        coded.push(CodeBranch { condition, body })?;
    }
    Ok(coded)
}

// Arms with slots, in order.
#[cycle(writing)]
fn coded_arms(alloc: Global, layout: &Layout, list: &[TypedArm]) -> Result<Vec<CodeArm>, AllocError>
    ensures same { IfOk result (λ coded. map code_case coded.items ≡ map case_of list.now) }
    ensures slots { IfOk result (λ coded. all_true (map (placed_arm layout.now) coded.items) ≡ true) }
{
    let mut coded = Vec::new(alloc);
    for arm in list {
        let labels = copied(alloc, &arm.labels)?;
        let body = coded_list(alloc, layout, &arm.body)?;
        coded.push(CodeArm { labels, body })?;
    }
    Ok(coded)
}

/// An algorithm with the slots of its variables in a layout.
pub fn coded_algorithm(
    alloc: Global,
    layout: &Layout,
    algorithm: &Algo,
) -> Result<Procedure, AllocError>
    ensures same { IfOk result (λ coded. code_commands coded.statements.items ≡ commands_of algorithm.now.statements.items) }
    ensures slots { IfOk result (λ coded. placed_all layout.now coded.statements.items ≡ true) }
{
    Ok(Procedure {
        statements: coded_list(alloc, layout, &algorithm.statements)?,
    })
}
