//! The numbers that stand in expressions and statements.

use st_types::{TypedArm, TypedBranch, TypedExpr, TypedLink, TypedStmt};
use std::alloc::AllocError;

/// Adds the numbers of an expression.
#[cycle(reading)]
pub(crate) fn add_term(expr: &TypedExpr, numbers: &mut Vec<i64>) -> Result<(), AllocError> {
    match expr {
        TypedExpr::Constant(number) => {
            numbers.push(*number)?;
            Ok(())
        }
        TypedExpr::Read(_) => Ok(()),
        TypedExpr::Element(_, _, _, index) => add_term(index, numbers),
        TypedExpr::Unary(_, _, operand) => add_term(operand, numbers),
        TypedExpr::Chain(first, links) => {
            add_term(first, numbers)?;
            add_links(links, numbers)
        }
    }
}

#[cycle(reading)]
fn add_links(links: &[TypedLink], numbers: &mut Vec<i64>) -> Result<(), AllocError> {
    for link in links {
        add_term(&link.operand, numbers)?;
    }
    Ok(())
}

// Adds those of two.
fn add_terms(one: &TypedExpr, other: &TypedExpr, numbers: &mut Vec<i64>) -> Result<(), AllocError> {
    add_term(one, numbers)?;
    add_term(other, numbers)
}

/// Adds those of statements.
#[cycle(listing)]
pub(crate) fn add_list(list: &[TypedStmt], numbers: &mut Vec<i64>) -> Result<(), AllocError> {
    for statement in list {
        add_statement(statement, numbers)?;
    }
    Ok(())
}

#[cycle(listing)]
fn add_statement(statement: &TypedStmt, numbers: &mut Vec<i64>) -> Result<(), AllocError> {
    match statement {
        TypedStmt::Set(_, value) => add_term(value, numbers),
        TypedStmt::SetElement(_, _, _, index, value) => { add_terms(index, value, numbers) }
        TypedStmt::If(branches, other) => {
            add_branches(branches, numbers)?;
            add_list(other, numbers)
        }
        TypedStmt::Case(selector, arms, other) => {
            add_term(selector, numbers)?;
            add_arms(arms, numbers)?;
            add_list(other, numbers)
        }
        TypedStmt::For(counting, body) => {
            add_terms(&counting.first, &counting.last, numbers)?;
            add_list(body, numbers)
        }
    }
}

#[cycle(listing)]
fn add_branches(list: &[TypedBranch], numbers: &mut Vec<i64>) -> Result<(), AllocError> {
    for branch in list {
        add_term(&branch.condition, numbers)?;
        add_list(&branch.body, numbers)?;
    }
    Ok(())
}

#[cycle(listing)]
fn add_arms(list: &[TypedArm], numbers: &mut Vec<i64>) -> Result<(), AllocError> {
    for arm in list {
        add_labels(&arm.labels, numbers)?;
        add_list(&arm.body, numbers)?;
    }
    Ok(())
}

// Adds those of labels.
fn add_labels(labels: &[(i64, i64)], numbers: &mut Vec<i64>) -> Result<(), AllocError> {
    for label in labels {
        numbers.push(label.0)?;
        numbers.push(label.1)?;
    }
    Ok(())
}
