//! Statements.

ghost use Rattle.std.specs.Prelude.{◌≡◌, ◌&&◌, ◌++◌, [], ◌∷◌, map, string_bytes, IfOk};
ghost use Rattle.fb_tree.specs.Words.{word_of, optional};
ghost use Rattle.fb_model.specs.StructuredText as text;
ghost use Rattle.fb_tree.specs.Algorithms as tree;
ghost use Rattle.st_types.specs.Answers.{Gives};
ghost use Rattle.st_types.specs.Commanding as book;
ghost use Rattle.st_types.specs.Elaborating as elaborating;
ghost use Rattle.st_types.specs.Views.{entries, symbol_of};
ghost use Rattle.st_types.specs.CommandViews.{busy_of, counting_of, command_of, commands_of, choice_of, choices_of, case_of, cases_of};

use crate::command::{Counting, TypedArm, TypedBranch, TypedStmt};
use crate::expression::{asked, condition, known, signed, typed};
use crate::operand::integer;
use crate::scope::{Scope, Variable, named};
use crate::types::is_integer;
use fb_faults::TypingFault;
use fb_tree::{Arm, Bound, Branch, Constant, Expr, Label, Literal, Name, Stmt};
use fb_words::ElemType;
use std::alloc::{AllocError, Global};

// An element of an array that gets a value: the array's name, the place of the bracket, and the index.
#[derive(Clone, Copy)]
struct Target<'a> {
    name: &'a Name,
    bracket: usize,
    index: &'a Expr,
}

// The head of a FOR.
#[derive(Clone, Copy)]
struct Head<'a> {
    at: usize,
    name: &'a Name,
    first: &'a Bound,
    last: &'a Bound,
    by: &'a Option<Constant>,
}

// The variables that count, with one more.
fn with_name(alloc: Global, busy: &[String], name: &String) -> Result<Vec<String>, AllocError>
    ensures { IfOk result (λ v. busy_of v.items ≡ busy_of busy.now ++ string_bytes name.now ∷ []) }
{
    let mut names = Vec::new(alloc);
    for counted in busy {
        names.push(counted.clone()?)?;
    }
    names.push(name.clone()?)?;
    Ok(names)
}

// A variable that may be assigned.
fn assignable(scope: &Scope, busy: &[String], name: &Name) -> Result<Variable, TypingFault>
    ensures { Gives (symbol_of (word_of name.now).text) result (book.assignable (entries scope.now) (busy_of busy.now) (word_of name.now)) }
{
    let variable = known(scope, name)?;
    if !variable.writable {
        return Err(TypingFault::NotWritable(name.at));
    }
    if busy.contains(&name.text) {
        return Err(TypingFault::NotWritable(name.at));
    }
    Ok(variable)
}

// The type of a variable that is no array.
fn scalar(name: &Name, at: usize, variable: Variable) -> Result<ElemType, TypingFault>
    ensures { Gives (λ a. a) result (book.scalar at (symbol_of (word_of name.now).text variable)) }
{
    match variable.bounds {
        None => Ok(variable.of_type),
        Some(_) => Err(TypingFault::TypeMismatch(at)),
    }
}

// The type of an integer that is no array.
fn counter(name: &Name, at: usize, variable: Variable) -> Result<ElemType, TypingFault>
    ensures { Gives (λ a. a) result (book.counter at (symbol_of (word_of name.now).text variable)) }
{
    let of = scalar(name, at, variable)?;
    if !is_integer(of) {
        return Err(TypingFault::TypeMismatch(at));
    }
    Ok(of)
}

// A number without a type, which has to fit one.
fn number(of: ElemType, constant: &Constant) -> Result<i64, TypingFault>
    ensures { Gives (λ n. n) result (book.number_of of (tree.constant_of constant.now)) }
{
    match constant.value {
        Literal::Whole(negative, size) => {
            let number = signed(negative, size);
            if !of.fits(number) {
                return Err(TypingFault::BadLiteral(constant.at));
            }
            Ok(number as i64)
        }
        _ => Err(TypingFault::BadLiteral(constant.at)),
    }
}

fn label(of: ElemType, label: &Label) -> Result<(i64, i64), TypingFault>
    ensures { Gives (λ r. r) result (book.label_of of (tree.label_of label.now)) }
{
    let low = number(of, &label.low)?;
    let high = match &label.high {
        None => low,
        Some(constant) => number(of, constant)?,
    };
    Ok((low, high))
}

fn labels(alloc: Global, of: ElemType, list: &[Label]) -> Result<Vec<(i64, i64)>, TypingFault>
    ensures { Gives (λ v. v.items) result (book.labels_of of (map tree.label_of list.now)) }
{
    let mut numbers = Vec::new(alloc);
    for one in list {
        numbers.push(label(of, one)?)?;
    }
    Ok(numbers)
}

fn step(of: ElemType, constant: &Option<Constant>) -> Result<i64, TypingFault>
    ensures { Gives (λ n. n) result (book.step_of of (optional tree.constant_of constant.now)) }
{
    match constant {
        None => Ok(1),
        Some(constant) => {
            let number = number(of, constant)?;
            if number == 0 {
                return Err(TypingFault::BadLiteral(constant.at));
            }
            Ok(number)
        }
    }
}

fn assignment(
    alloc: Global,
    scope: &Scope,
    busy: &[String],
    name: &Name,
    at: usize,
    value: &Expr,
) -> Result<TypedStmt, TypingFault>
    ensures { Gives command_of result (book.commanded (entries scope.now) (busy_of busy.now) (text.assign (word_of name.now) at (tree.expr_of value.now))) }
{
    let variable = assignable(scope, busy, name)?;
    let of = scalar(name, at, variable)?;
    let value = asked(alloc, scope, of, at, value)?;
    Ok(TypedStmt::Set(named(name, variable)?, value))
}

fn bounds(name: &Name, at: usize, variable: Variable) -> Result<(i64, i64), TypingFault>
    ensures { Gives (λ b. b) result (elaborating.bounds_by at (symbol_of (word_of name.now).text variable).bounds) }
{
    match variable.bounds {
        Some(bounds) => Ok(bounds),
        None => Err(TypingFault::TypeMismatch(at)),
    }
}

fn element(
    alloc: Global,
    scope: &Scope,
    busy: &[String],
    target: &Target,
    at: usize,
    value: &Expr,
) -> Result<TypedStmt, TypingFault>
    ensures { Gives command_of result (book.commanded (entries scope.now) (busy_of busy.now) (text.assign_element (word_of target.now.name.now) target.now.bracket (tree.expr_of target.now.index.now) at (tree.expr_of value.now))) }
{
    let variable = assignable(scope, busy, target.name)?;
    let (low, high) = bounds(target.name, target.bracket, variable)?;
    let operand = typed(alloc, scope, target.index)?;
    let (_, index) = integer(alloc, target.bracket, operand)?;
    let value = asked(alloc, scope, variable.of_type, at, value)?;
    Ok(TypedStmt::SetElement(named(target.name, variable)?, low, high, index, value))
}

// How a FOR counts.
fn counting(
    alloc: Global,
    scope: &Scope,
    busy: &[String],
    head: &Head,
) -> Result<Counting, TypingFault>
    ensures { Gives counting_of result (book.counted (entries scope.now) (busy_of busy.now) head.now.at (word_of head.now.name.now) (tree.bound_of head.now.first.now) (tree.bound_of head.now.last.now) (optional tree.constant_of head.now.by.now)) }
{
    let variable = assignable(scope, busy, head.name)?;
    let of_type = counter(head.name, head.at, variable)?;
    let plain = head.first.plain && head.last.plain;
    let first = asked(alloc, scope, of_type, head.at, &head.first.value)?;
    let last = asked(alloc, scope, of_type, head.at, &head.last.value)?;
    let step = step(of_type, head.by)?;
    Ok(Counting {
        variable: named(head.name, variable)?,
        of_type,
        first,
        last,
        step,
        plain,
    })
}

// What a statement is. The variables with which the FORs around it count are busy.
#[cycle(commanding)]
fn command(
    alloc: Global,
    scope: &Scope,
    busy: &[String],
    stmt: &Stmt,
) -> Result<TypedStmt, TypingFault>
    ensures { Gives command_of result (book.commanded (entries scope.now) (busy_of busy.now) (tree.stmt_of stmt.now)) }
{
    match stmt {
        Stmt::Assign(name, at, value) => assignment(alloc, scope, busy, name, *at, value),
        Stmt::AssignElement(name, bracket, index, at, value) => {
            let target = Target {
                name,
                bracket: *bracket,
                index,
            };
            element(alloc, scope, busy, &target, *at, value)
        }
        Stmt::If(branches, otherwise) => {
            let branches = choices(alloc, scope, busy, branches)?;
            let otherwise = commands(alloc, scope, busy, otherwise)?;
            Ok(TypedStmt::If(branches, otherwise))
        }
        Stmt::Case(at, selector, arms, otherwise) => {
            let operand = typed(alloc, scope, selector)?;
            let (of, selector) = integer(alloc, *at, operand)?;
            let arms = cases(alloc, scope, busy, of, arms)?;
            let otherwise = commands(alloc, scope, busy, otherwise)?;
            Ok(TypedStmt::Case(selector, arms, otherwise))
        }
        Stmt::For(at, name, first, last, by, body) => {
            let head = Head {
                at: *at,
                name,
                first,
                last,
                by,
            };
            let counting = counting(alloc, scope, busy, &head)?;
            Ok(TypedStmt::For(counting, loop_body(alloc, scope, busy, name, body)?))
        }
    }
}

// What is done in each iteration of a FOR, which counts with the variable.
#[cycle(commanding)]
fn loop_body(
    alloc: Global,
    scope: &Scope,
    busy: &[String],
    name: &Name,
    body: &[Stmt],
) -> Result<Vec<TypedStmt>, TypingFault>
    ensures { Gives (λ v. commands_of v.items) result (book.all_commanded (entries scope.now) (busy_of busy.now ++ (word_of name.now).text ∷ []) (tree.body_of body.now)) }
{
    let inner = with_name(alloc, busy, &name.text)?;
    commands(alloc, scope, &inner, body)
}

/// What statements are, in order. The variables with which the FORs around them count are busy.
#[cycle(commanding)]
pub(crate) fn commands(
    alloc: Global,
    scope: &Scope,
    busy: &[String],
    list: &[Stmt],
) -> Result<Vec<TypedStmt>, TypingFault>
    ensures { Gives (λ v. commands_of v.items) result (book.all_commanded (entries scope.now) (busy_of busy.now) (tree.body_of list.now)) }
{
    let mut done = Vec::new(alloc);
    for stmt in list {
        done.push(command(alloc, scope, busy, stmt)?)?;
    }
    Ok(done)
}

// A condition, and what is done where it holds.
#[cycle(commanding)]
fn choice(
    alloc: Global,
    scope: &Scope,
    busy: &[String],
    branch: &Branch,
) -> Result<TypedBranch, TypingFault>
    ensures { Gives choice_of result (book.one_chosen (entries scope.now) (busy_of busy.now) (tree.branch_of branch.now)) }
{
    let condition = condition(alloc, scope, branch.at, &branch.condition)?;
    let body = commands(alloc, scope, busy, &branch.body)?;
    Ok(TypedBranch { condition, body })
}

#[cycle(commanding)]
fn choices(
    alloc: Global,
    scope: &Scope,
    busy: &[String],
    list: &[Branch],
) -> Result<Vec<TypedBranch>, TypingFault>
    ensures { Gives (λ v. choices_of v.items) result (book.chosen (entries scope.now) (busy_of busy.now) (text.branches (map tree.branch_of list.now))) }
{
    let mut done = Vec::new(alloc);
    for branch in list {
        done.push(choice(alloc, scope, busy, branch)?)?;
    }
    Ok(done)
}

// Labels, and what is done where one of them has the value.
#[cycle(commanding)]
fn case(
    alloc: Global,
    scope: &Scope,
    busy: &[String],
    of: ElemType,
    arm: &Arm,
) -> Result<TypedArm, TypingFault>
    ensures { Gives case_of result (book.one_cased (entries scope.now) (busy_of busy.now) of (tree.arm_of arm.now)) }
{
    let labels = labels(alloc, of, &arm.labels)?;
    let body = commands(alloc, scope, busy, &arm.body)?;
    Ok(TypedArm { labels, body })
}

#[cycle(commanding)]
fn cases(
    alloc: Global,
    scope: &Scope,
    busy: &[String],
    of: ElemType,
    list: &[Arm],
) -> Result<Vec<TypedArm>, TypingFault>
    ensures { Gives (λ v. cases_of v.items) result (book.cased (entries scope.now) (busy_of busy.now) of (text.arms (map tree.arm_of list.now))) }
{
    let mut done = Vec::new(alloc);
    for arm in list {
        done.push(case(alloc, scope, busy, of, arm)?)?;
    }
    Ok(done)
}
