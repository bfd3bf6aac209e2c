//! Ranges where a condition is true, or false.

ghost use Rattle.std.specs.Prelude.{◌≡◌, ◌<◌, ◌≤◌, ◌-◌, ℕ, [], ◌∷◌, OnOk, length, map, take, true, false, slice_index_or, string_bytes};
ghost use Rattle.st_types.specs.declared.term.TypedLink.{TypedLink};
ghost use Rattle.fb_model.specs.Clear as book;
ghost use Rattle.fb_model.specs.Clear.{changed};
ghost use Rattle.st_types.specs.Views.{joined, term_of, tail_of};
ghost use Rattle.fb_ranges.specs.Narrowing.{splits};
ghost use Rattle.fb_ranges_intervals.specs.Views.{span_of};
ghost use Rattle.fb_ranges.specs.Views.{spans_of};

use crate::rows::Ranges;
use crate::side::{number, variable};
use fb_ranges_intervals::{is_truth, meets, mirrored, opposite};
use fb_words::{ElemType, Operation, Operator};
use st_types::{TypedExpr, TypedLink, VariableName};
use std::alloc::AllocError;

// A variable that stands in a relation to a number.
fn narrow_variable(
    name: &VariableName,
    operator: Operator,
    number: i64,
    ranges: &mut Ranges,
) -> Result<(), AllocError>
    ensures { OnOk result (spans_of ranges.new ≡ changed (string_bytes name.now.name) (book.meets operator number) (spans_of ranges.old)) }
{
    let before = ranges.find_at(name);
    ranges.insert_at(name, meets(operator, number, before))
}

// A relation between a variable and a number, from either side.
fn relate(
    operator: Operator,
    left: &TypedExpr,
    right: &TypedExpr,
    ranges: &mut Ranges,
) -> Result<(), AllocError>
    ensures { OnOk result (spans_of ranges.new ≡ book.related operator (term_of left.now) (term_of right.now) (spans_of ranges.old)) }
{
    match (variable(left), number(right)) {
        (Some(name), Some(number)) => return narrow_variable(name, operator, number, ranges),
        _ => {}
    }
    match (number(left), variable(right)) {
        (Some(number), Some(name)) => narrow_variable(name, mirrored(operator), number, ranges),
        _ => Ok(()),
    }
}

/// Whether both operands of an operation hold where it does, or both fail where it fails.
fn splits(operation: Operation, holds: bool) -> bool
    ensures { result ≡ splits holds operation }
{
    match operation {
        Operation::Infix(Operator::And) => holds,
        Operation::Infix(Operator::Or) => !holds,
        _ => false,
    }
}

// From where on each operation of a chain splits the condition.
fn parts_from(links: &[TypedLink], holds: bool) -> usize
    ensures within { result ≤ length links.now }
    ensures parts { (k : ℕ) (d : TypedLink) → result ≤ k → k < length links.now → splits holds (tail_of (slice_index_or links.now k d)).0 ≡ true }
    ensures front { (d : TypedLink) → 0 < result → splits holds (tail_of (slice_index_or links.now (result - 1) d)).0 ≡ false }
{
    let mut begin = 0;
    for i in 0..links.len() {
        if !splits(links[i].operation, holds) {
            begin = i + 1;
        }
    }
    begin
}

// An operation that does not split the condition.
fn narrow_relation(
    left: &TypedExpr,
    link: &TypedLink,
    holds: bool,
    ranges: &mut Ranges,
) -> Result<(), AllocError>
    requires { splits holds (tail_of link.now).0 ≡ false }
    ensures { OnOk result (spans_of ranges.new ≡ book.narrowed (joined (term_of left.now) (tail_of link.now ∷ [])) holds (spans_of ranges.old)) }
{
    match link.operation {
        Operation::Infix(operator) => {
            if is_truth(link.of_type) {
                return Ok(());
            }
            let operator = if holds { operator } else { opposite(operator) };
            relate(operator, left, &link.operand, ranges)
        }
        _ => Ok(()),
    }
}

/// Narrows the ranges of variables to those where a condition is true, or false.
///
/// Fails where memory runs out; then nothing is said of the ranges.
#[cycle(narrowing)]
pub fn narrow(condition: &TypedExpr, holds: bool, ranges: &mut Ranges) -> Result<(), AllocError>
    ensures { OnOk result (spans_of ranges.new ≡ book.narrowed (term_of condition.now) holds (spans_of ranges.old)) }
{
    match condition {
        TypedExpr::Unary(operation, _, operand) => match operation {
            Operation::Not => narrow(operand, !holds, ranges),
            _ => Ok(()),
        },
        TypedExpr::Chain(first, links) => narrow_chain(first, links, holds, ranges),
        TypedExpr::Constant(_) | TypedExpr::Read(_) | TypedExpr::Element(_, _, _, _) => Ok(()),
    }
}

#[cycle(narrowing)]
fn narrow_chain(
    first: &TypedExpr,
    links: &[TypedLink],
    holds: bool,
    ranges: &mut Ranges,
) -> Result<(), AllocError>
    ensures { OnOk result (spans_of ranges.new ≡ book.narrowed (joined (term_of first.now) (map tail_of links.now)) holds (spans_of ranges.old)) }
{
    let begin = parts_from(links, holds);
    narrow_front(first, links, begin, holds, ranges)?;
    for i in begin..links.len() {
        narrow(&links[i].operand, holds, ranges)?;
    }
    Ok(())
}

// What stands before the operations that split the condition.
#[cycle(narrowing)]
fn narrow_front(
    first: &TypedExpr,
    links: &[TypedLink],
    begin: usize,
    holds: bool,
    ranges: &mut Ranges,
) -> Result<(), AllocError>
    requires within { begin ≤ length links.now }
    requires front { (d : TypedLink) → 0 < begin → splits holds (tail_of (slice_index_or links.now (begin - 1) d)).0 ≡ false }
    ensures { OnOk result (spans_of ranges.new ≡ book.narrowed (joined (term_of first.now) (map tail_of (take begin links.now))) holds (spans_of ranges.old)) }
{
    if begin == 0 {
        return narrow(first, holds, ranges);
    }
    if begin == 1 {
        return narrow_relation(first, &links[0], holds, ranges);
    }
    Ok(())
}
