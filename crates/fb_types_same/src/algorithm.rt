//! Algorithms that are the same.

ghost use Rattle.std.specs.Prelude.{◌≡◌, true, map};
ghost use Rattle.st_types.specs.CommandViews.{counting_of, command_of, commands_of, choice_of, case_of};

use crate::names::same_labels;
use crate::term::same_term;
use st_types::{Algo, Counting, TypedArm, TypedBranch, TypedStmt};

// Whether two FORs count in the same way.
fn same_counting(one: &Counting, other: &Counting) -> bool
    ensures { result ≡ true → counting_of one.now ≡ counting_of other.now }
{
    one.variable.name == other.variable.name
        && one.of_type == other.of_type
        && same_term(&one.first, &other.first)
        && same_term(&one.last, &other.last)
        && one.step == other.step
        && one.plain == other.plain
}

// Whether two statements are the same.
#[cycle(statements)]
fn same_statement(one: &TypedStmt, other: &TypedStmt) -> bool
    ensures { result ≡ true → command_of one.now ≡ command_of other.now }
{
    match (one, other) {
        (TypedStmt::Set(one, value), TypedStmt::Set(other, number)) => {
            one.name == other.name && same_term(value, number)
        }
        (
            TypedStmt::SetElement(one, low, high, at, value),
            TypedStmt::SetElement(other, first, last, index, number),
        ) => {
            one.name == other.name
                && *low == *first
                && *high == *last
                && same_term(at, index)
                && same_term(value, number)
        }
        (TypedStmt::If(one, rest), TypedStmt::If(other, others)) => {
            same_branches(one, other) && same_statements(rest, others)
        }
        (TypedStmt::Case(one, arms, rest), TypedStmt::Case(other, cases, others)) => {
            same_term(one, other) && same_arms(arms, cases) && same_statements(rest, others)
        }
        (TypedStmt::For(one, body), TypedStmt::For(other, others)) => {
            same_counting(one, other) && same_statements(body, others)
        }
        _ => false,
    }
}

// Whether two lists of statements are the same.
#[cycle(statements)]
fn same_statements(one: &[TypedStmt], other: &[TypedStmt]) -> bool
    ensures { result ≡ true → map command_of one.now ≡ map command_of other.now }
{
    if one.len() != other.len() {
        return false;
    }
    for at in 0..one.len() {
        if !same_statement(&one[at], &other[at]) {
            return false;
        }
    }
    true
}

// Whether two branches are the same.
#[cycle(statements)]
fn same_branch(one: &TypedBranch, other: &TypedBranch) -> bool
    ensures { result ≡ true → choice_of one.now ≡ choice_of other.now }
{
    same_term(&one.condition, &other.condition) && same_statements(&one.body, &other.body)
}

// Whether two lists of branches are the same.
#[cycle(statements)]
fn same_branches(one: &[TypedBranch], other: &[TypedBranch]) -> bool
    ensures { result ≡ true → map choice_of one.now ≡ map choice_of other.now }
{
    if one.len() != other.len() {
        return false;
    }
    for at in 0..one.len() {
        if !same_branch(&one[at], &other[at]) {
            return false;
        }
    }
    true
}

// Whether two arms are the same.
#[cycle(statements)]
fn same_arm(one: &TypedArm, other: &TypedArm) -> bool
    ensures { result ≡ true → case_of one.now ≡ case_of other.now }
{
    same_labels(&one.labels, &other.labels) && same_statements(&one.body, &other.body)
}

// Whether two lists of arms are the same.
#[cycle(statements)]
fn same_arms(one: &[TypedArm], other: &[TypedArm]) -> bool
    ensures { result ≡ true → map case_of one.now ≡ map case_of other.now }
{
    if one.len() != other.len() {
        return false;
    }
    for at in 0..one.len() {
        if !same_arm(&one[at], &other[at]) {
            return false;
        }
    }
    true
}

/// Whether two algorithms are the same.
pub(crate) fn same_algorithm(one: &Algo, other: &Algo) -> bool
    ensures { result ≡ true → commands_of one.now.statements.items ≡ commands_of other.now.statements.items }
{
    same_statements(&one.statements, &other.statements)
}
