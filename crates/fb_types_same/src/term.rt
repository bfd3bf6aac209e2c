//! Expressions that are the same.

ghost use Rattle.std.specs.Prelude.{◌≡◌, true, map};
ghost use Rattle.std.specs.Option.{option_map};
ghost use Rattle.st_types.specs.Views.{term_of, tail_of};

use fb_words::{Operation, Operator};
use st_types::{TypedExpr, TypedLink};

// Whether two operators are the same.
fn same_operator(one: Operator, other: Operator) -> bool
    ensures { result ≡ true → one ≡ other }
{
    match (one, other) {
        (Operator::Or, Operator::Or) => true,
        (Operator::Xor, Operator::Xor) => true,
        (Operator::And, Operator::And) => true,
        (Operator::Equal, Operator::Equal) => true,
        (Operator::NotEqual, Operator::NotEqual) => true,
        (Operator::Less, Operator::Less) => true,
        (Operator::Greater, Operator::Greater) => true,
        (Operator::LessEqual, Operator::LessEqual) => true,
        (Operator::GreaterEqual, Operator::GreaterEqual) => true,
        (Operator::Plus, Operator::Plus) => true,
        (Operator::Minus, Operator::Minus) => true,
        (Operator::Times, Operator::Times) => true,
        (Operator::Over, Operator::Over) => true,
        (Operator::Modulo, Operator::Modulo) => true,
        _ => false,
    }
}

// Whether two operations are the same.
fn same_operation(one: Operation, other: Operation) -> bool
    ensures { result ≡ true → one ≡ other }
{
    match (one, other) {
        (Operation::Infix(one), Operation::Infix(other)) => same_operator(one, other),
        (Operation::Negate, Operation::Negate) => true,
        (Operation::Not, Operation::Not) => true,
        (Operation::Abs, Operation::Abs) => true,
        (Operation::Min, Operation::Min) => true,
        (Operation::Max, Operation::Max) => true,
        (Operation::Limit, Operation::Limit) => true,
        (Operation::Convert(from, to), Operation::Convert(first, second)) => {
            from == first && to == second
        }
        _ => false,
    }
}

/// Whether two expressions are the same.
#[cycle(terms)]
pub(crate) fn same_term(one: &TypedExpr, other: &TypedExpr) -> bool
    ensures { result ≡ true → term_of one.now ≡ term_of other.now }
{
    match (one, other) {
        (TypedExpr::Constant(one), TypedExpr::Constant(other)) => *one == *other,
        (TypedExpr::Read(one), TypedExpr::Read(other)) => one.name == other.name,
        (TypedExpr::Element(one, low, high, at), TypedExpr::Element(other, first, last, index)) => {
            one.name == other.name && *low == *first && *high == *last && same_term(at, index)
        }
        (TypedExpr::Unary(does, of, one), TypedExpr::Unary(operation, of_type, other)) => {
            same_operation(*does, *operation) && *of == *of_type && same_term(one, other)
        }
        (TypedExpr::Chain(one, links), TypedExpr::Chain(other, others)) => {
            same_term(one, other) && same_links(links, others)
        }
        _ => false,
    }
}

// Whether two operations behind a first operand are the same.
#[cycle(terms)]
fn same_link(one: &TypedLink, other: &TypedLink) -> bool
    ensures { result ≡ true → tail_of one.now ≡ tail_of other.now }
{
    same_operation(one.operation, other.operation)
        && one.of_type == other.of_type
        && same_term(&one.operand, &other.operand)
}

// Whether two lists of operations behind a first operand are the same.
#[cycle(terms)]
fn same_links(one: &[TypedLink], other: &[TypedLink]) -> bool
    ensures { result ≡ true → map tail_of one.now ≡ map tail_of other.now }
{
    if one.len() != other.len() {
        return false;
    }
    for at in 0..one.len() {
        if !same_link(&one[at], &other[at]) {
            return false;
        }
    }
    true
}

/// Whether two guards that may be left out are the same.
pub(crate) fn same_guard(one: &Option<TypedExpr>, other: &Option<TypedExpr>) -> bool
    ensures { result ≡ true → option_map term_of one.now ≡ option_map term_of other.now }
{
    match (one, other) {
        (Some(one), Some(other)) => same_term(one, other),
        (None, None) => true,
        _ => false,
    }
}
