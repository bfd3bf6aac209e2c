//! Expressions.

ghost use Rattle.std.specs.Prelude.{◌≡◌, map, Ok};
ghost use Rattle.fb_model.specs.StructuredText as text;
ghost use Rattle.fb_model.specs.StructuredText.{expressions, expression, no_expression};
ghost use Rattle.fb_model.specs.Values.{signed};
ghost use Rattle.fb_tree.specs.Algorithms.{literal_of, expr_of, link_of};
ghost use Rattle.fb_tree.specs.Words.{word_of};
ghost use Rattle.st_types.specs.Answers.{Gives};
ghost use Rattle.st_types.specs.Elaborating as book;
ghost use Rattle.st_types.specs.Views.{term_of, operand_of, entries, symbol_of};

use crate::operand::{
    Operand, constant, integer, linked, loosely_linked, operands_type, taken, truth,
};
use crate::operation::{arity, called, gives, stays_free};
use crate::scope::{Scope, Variable, find, named};
use crate::term::{Loose, TypedExpr};
use fb_faults::TypingFault;
use fb_tree::{Constant, Expr, Link, Literal, Name};
use fb_words::{ElemType, Operation};
use std::alloc::Global;

// The function of a call, and its place.
#[derive(Clone, Copy)]
struct Callee {
    function: Operation,
    at: usize,
}

fn typed_single(
    alloc: Global,
    operation: Operation,
    at: usize,
    a: Operand,
) -> Result<Operand, TypingFault>
    ensures { Gives operand_of result (book.typed_single operation at (operand_of a)) }
{
    let operands = [a];
    let of = operands_type(operation, at, &operands)?;
    let [a] = operands;
    let a = taken(alloc, of, at, a)?;
    Ok(Operand::Fixed(
        gives(operation, of),
        TypedExpr::Unary(operation, of, Box::new(alloc, a)?),
    ))
}

fn typed_double(
    alloc: Global,
    operation: Operation,
    at: usize,
    a: Operand,
    b: Operand,
) -> Result<Operand, TypingFault>
    ensures { Gives operand_of result (book.typed_double operation at (operand_of a) (operand_of b)) }
{
    let operands = [a, b];
    let of = operands_type(operation, at, &operands)?;
    let [a, b] = operands;
    let a = taken(alloc, of, at, a)?;
    let b = taken(alloc, of, at, b)?;
    Ok(Operand::Fixed(gives(operation, of), linked(alloc, a, operation, of, b)?))
}

fn typed_limit(
    alloc: Global,
    at: usize,
    a: Operand,
    b: Operand,
    c: Operand,
) -> Result<Operand, TypingFault>
    ensures { Gives operand_of result (book.typed_limit at (operand_of a) (operand_of b) (operand_of c)) }
{
    let operands = [a, b, c];
    let of = operands_type(Operation::Limit, at, &operands)?;
    let [a, b, c] = operands;
    let a = taken(alloc, of, at, a)?;
    let b = taken(alloc, of, at, b)?;
    let c = taken(alloc, of, at, c)?;
    let least = linked(alloc, b, Operation::Max, of, a)?;
    Ok(Operand::Fixed(of, linked(alloc, least, Operation::Min, of, c)?))
}

fn on_one(
    alloc: Global,
    operation: Operation,
    at: usize,
    a: Operand,
) -> Result<Operand, TypingFault>
    ensures { Gives operand_of result (book.on_one operation at (operand_of a)) }
{
    match a {
        Operand::Free(a) => {
            if !stays_free(operation) {
                return typed_single(alloc, operation, at, Operand::Free(a));
            }
            Ok(Operand::Free(Loose::Unary(operation, at, Box::new(alloc, a)?)))
        }
        a => typed_single(alloc, operation, at, a),
    }
}

fn on_two(
    alloc: Global,
    operation: Operation,
    at: usize,
    a: Operand,
    b: Operand,
) -> Result<Operand, TypingFault>
    ensures { Gives operand_of result (book.on_two operation at (operand_of a) (operand_of b)) }
{
    match (a, b) {
        (Operand::Free(a), Operand::Free(b)) => {
            if !stays_free(operation) {
                return typed_double(alloc, operation, at, Operand::Free(a), Operand::Free(b));
            }
            Ok(Operand::Free(loosely_linked(alloc, a, operation, at, b)?))
        }
        (a, b) => typed_double(alloc, operation, at, a, b),
    }
}

fn on_three(
    alloc: Global,
    at: usize,
    a: Operand,
    b: Operand,
    c: Operand,
) -> Result<Operand, TypingFault>
    ensures { Gives operand_of result (book.on_three at (operand_of a) (operand_of b) (operand_of c)) }
{
    match (a, b, c) {
        (Operand::Free(a), Operand::Free(b), Operand::Free(c)) => {
            let least = loosely_linked(alloc, b, Operation::Max, at, a)?;
            Ok(Operand::Free(loosely_linked(alloc, least, Operation::Min, at, c)?))
        }
        (a, b, c) => typed_limit(alloc, at, a, b, c),
    }
}

fn applied_one(
    alloc: Global,
    function: Operation,
    at: usize,
    a: Operand,
) -> Result<Operand, TypingFault>
    ensures { Gives operand_of result (book.applied_one function at (operand_of a)) }
{
    if arity(function) != 1 {
        return Err(TypingFault::TypeMismatch(at));
    }
    on_one(alloc, function, at, a)
}

fn applied_two(
    alloc: Global,
    function: Operation,
    at: usize,
    a: Operand,
    b: Operand,
) -> Result<Operand, TypingFault>
    ensures { Gives operand_of result (book.applied_two function at (operand_of a) (operand_of b)) }
{
    if arity(function) != 2 {
        return Err(TypingFault::TypeMismatch(at));
    }
    on_two(alloc, function, at, a, b)
}

fn applied_three(
    alloc: Global,
    function: Operation,
    at: usize,
    a: Operand,
    b: Operand,
    c: Operand,
) -> Result<Operand, TypingFault>
    ensures { Gives operand_of result (book.applied_three function at (operand_of a) (operand_of b) (operand_of c)) }
{
    if arity(function) != 3 {
        return Err(TypingFault::TypeMismatch(at));
    }
    on_three(alloc, at, a, b, c)
}

/// The variable of a name, which has to be known.
pub(crate) fn known(scope: &Scope, name: &Name) -> Result<Variable, TypingFault>
    ensures { Gives (symbol_of (word_of name.now).text) result (book.known (entries scope.now) (word_of name.now).text name.now.at) }
{
    match find(scope, name.text.as_str()) {
        Some(variable) => Ok(variable),
        None => Err(TypingFault::UnknownName(name.at)),
    }
}

fn value(name: &Name, variable: Variable) -> Result<Operand, TypingFault>
    ensures { Gives operand_of result (Ok (book.value_of (word_of name.now).text (symbol_of (word_of name.now).text variable))) }
{
    match variable.bounds {
        None => Ok(Operand::Fixed(variable.of_type, TypedExpr::Read(named(name, variable)?))),
        Some(_) => Ok(Operand::Whole),
    }
}

fn element(
    alloc: Global,
    name: &Name,
    at: usize,
    variable: Variable,
    index: Operand,
) -> Result<Operand, TypingFault>
    ensures { Gives operand_of result (book.element_of (word_of name.now).text at (symbol_of (word_of name.now).text variable) (operand_of index)) }
{
    match variable.bounds {
        None => Err(TypingFault::TypeMismatch(at)),
        Some((low, high)) => {
            let (_, index) = integer(alloc, at, index)?;
            Ok(Operand::Fixed(
                variable.of_type,
                TypedExpr::Element(named(name, variable)?, low, high, Box::new(alloc, index)?),
            ))
        }
    }
}

/// A number by its sign and size.
pub fn signed(negative: bool, size: u64) -> i128
    ensures { result ≡ signed negative size }
{
    if negative {
        -(size as i128)
    } else {
        size as i128
    }
}

fn literal(constant_at: &Constant) -> Result<Operand, TypingFault>
    ensures { Gives operand_of result (book.literal_of constant_at.now.at (literal_of constant_at.now.value)) }
{
    let at = constant_at.at;
    match constant_at.value {
        Literal::Whole(negative, size) => Ok(Operand::Free(Loose::Number(
            signed(negative, size),
            at,
        ))),
        Literal::Typed(of, negative, size) => {
            Ok(Operand::Fixed(of, constant(of, signed(negative, size), at)?))
        }
        Literal::Duration(negative, size) => {
            let of = ElemType::Time;
            Ok(Operand::Fixed(of, constant(of, signed(negative, size), at)?))
        }
        Literal::Truth(value) => Ok(Operand::Fixed(
            ElemType::Bool,
            TypedExpr::Constant(i64::from(value)),
        )),
    }
}

/// What an expression is before something asks it for a type.
///
/// Refused with `UnknownName` at a name that stands for no variable or function, `TypeMismatch` at the operator, function or `[` that
/// asks for a type, and `BadLiteral` at a literal that does not fit.
#[cycle(typing)]
pub fn typed(alloc: Global, scope: &Scope, expr: &Expr) -> Result<Operand, TypingFault>
    ensures { Gives operand_of result (book.typed (entries scope.now) (expr_of expr.now)) }
{
    match expr {
        Expr::Literal(constant) => literal(constant),
        Expr::Variable(name) => {
            let variable = known(scope, name)?;
            value(name, variable)
        }
        Expr::Element(name, at, index) => {
            let variable = known(scope, name)?;
            let index = typed(alloc, scope, index)?;
            element(alloc, name, *at, variable, index)
        }
        Expr::Negative(at, inner) => {
            let inner = typed(alloc, scope, inner)?;
            on_one(alloc, Operation::Negate, *at, inner)
        }
        Expr::Inverse(at, inner) => {
            let inner = typed(alloc, scope, inner)?;
            on_one(alloc, Operation::Not, *at, inner)
        }
        Expr::Chain(first, links) => {
            let first = typed(alloc, scope, first)?;
            typed_links(alloc, scope, first, links)
        }
        Expr::Call(name, arguments) => call(alloc, scope, name, arguments),
    }
}

// Operators behind an operand, each with its second operand.
#[cycle(typing)]
fn typed_links(
    alloc: Global,
    scope: &Scope,
    first: Operand,
    links: &[Link],
) -> Result<Operand, TypingFault>
    ensures { Gives operand_of result (book.typed_links (entries scope.now) (operand_of first) (map link_of links.now)) }
{
    let mut whole = first;
    for link in links {
        let operand = typed(alloc, scope, &link.operand)?;
        whole = on_two(
            alloc,
            Operation::Infix(link.operator),
            link.at,
            whole,
            operand,
        )?;
    }
    Ok(whole)
}

#[cycle(typing)]
fn call(
    alloc: Global,
    scope: &Scope,
    name: &Name,
    arguments: &[Expr],
) -> Result<Operand, TypingFault>
    ensures { Gives operand_of result (book.typed (entries scope.now) (text.call (word_of name.now) (expressions (map expr_of arguments.now)))) }
{
    let Some(function) = called(name.text.as_str()) else {
        return Err(TypingFault::UnknownName(name.at));
    };
    let callee = Callee {
        function,
        at: name.at,
    };
    typed_call(alloc, scope, callee, arguments)
}

#[cycle(typing)]
fn typed_call(
    alloc: Global,
    scope: &Scope,
    callee: Callee,
    arguments: &[Expr],
) -> Result<Operand, TypingFault>
    ensures { Gives operand_of result (book.typed_call (entries scope.now) callee.function callee.at (expressions (map expr_of arguments.now))) }
{
    match arguments {
        [] => Err(TypingFault::TypeMismatch(callee.at)),
        [a] => call_one(alloc, scope, callee, a),
        [a, b] => call_two(alloc, scope, callee, a, b),
        [a, b, c] => call_three(alloc, scope, callee, a, b, c),
        [_, _, _, _, ..] => Err(TypingFault::TypeMismatch(callee.at)),
    }
}

#[cycle(typing)]
fn call_one(alloc: Global, scope: &Scope, callee: Callee, a: &Expr) -> Result<Operand, TypingFault>
    ensures { Gives operand_of result (book.typed_call (entries scope.now) callee.function callee.at (expression (expr_of a.now) no_expression)) }
{
    let a = typed(alloc, scope, a)?;
    applied_one(alloc, callee.function, callee.at, a)
}

#[cycle(typing)]
fn call_two(
    alloc: Global,
    scope: &Scope,
    callee: Callee,
    a: &Expr,
    b: &Expr,
) -> Result<Operand, TypingFault>
    ensures { Gives operand_of result (book.typed_call (entries scope.now) callee.function callee.at (expression (expr_of a.now) (expression (expr_of b.now) no_expression))) }
{
    let a = typed(alloc, scope, a)?;
    let b = typed(alloc, scope, b)?;
    applied_two(alloc, callee.function, callee.at, a, b)
}

#[cycle(typing)]
fn call_three(
    alloc: Global,
    scope: &Scope,
    callee: Callee,
    a: &Expr,
    b: &Expr,
    c: &Expr,
) -> Result<Operand, TypingFault>
    ensures { Gives operand_of result (book.typed_call (entries scope.now) callee.function callee.at (expression (expr_of a.now) (expression (expr_of b.now) (expression (expr_of c.now) no_expression)))) }
{
    let a = typed(alloc, scope, a)?;
    let b = typed(alloc, scope, b)?;
    let c = typed(alloc, scope, c)?;
    applied_three(alloc, callee.function, callee.at, a, b, c)
}

/// An expression where a type is asked for at a place.
///
/// Refused as `typed`, and with `TypeMismatch` at the place where the expression's type does not widen to the one asked for.
pub fn asked(
    alloc: Global,
    scope: &Scope,
    of: ElemType,
    at: usize,
    expr: &Expr,
) -> Result<TypedExpr, TypingFault>
    ensures { Gives term_of result (book.asked (entries scope.now) of at (expr_of expr.now)) }
{
    let operand = typed(alloc, scope, expr)?;
    taken(alloc, of, at, operand)
}

/// A condition at a place: an expression that is BOOL by itself.
///
/// Refused as `typed`, and with `TypeMismatch` at the place where the expression is no BOOL, as a number without a type.
pub fn condition(
    alloc: Global,
    scope: &Scope,
    at: usize,
    expr: &Expr,
) -> Result<TypedExpr, TypingFault>
    ensures { Gives term_of result (book.condition (entries scope.now) at (expr_of expr.now)) }
{
    let operand = typed(alloc, scope, expr)?;
    truth(at, operand)
}
