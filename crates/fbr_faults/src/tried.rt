//! Ranges that are narrowed for a while.

use fb_ranges::{Interval, Ranges, range};
use fb_ranges_intervals::{is_truth, meets, mirrored, opposite};
use fb_words::{Operation, Operator};
use st_types::{TypedExpr, TypedLink, VariableName};
use std::alloc::{AllocError, Global};

/// Ranges, and those that variables had before they were narrowed, the latest last.
#[derive(Drop)]
pub(crate) struct Tried<'e> {
    pub ranges: Ranges,
    before: Vec<(&'e VariableName, Interval)>,
}

// The variable that an expression is, if it is one and no element of an array.
fn variable_in(expr: &TypedExpr) -> Option<&VariableName> {
    match expr {
        TypedExpr::Read(name) => Some(name),
        TypedExpr::Chain(first, links) => {
            if !links.is_empty() {
                return None;
            }
            variable_in(first)
        }
        TypedExpr::Constant(_) | TypedExpr::Element(_, _, _, _) | TypedExpr::Unary(_, _, _) => None,
    }
}

// Whether an operation gives that all operands hold, or that all fail.
fn splits(operation: Operation, holds: bool) -> bool {
    match operation {
        Operation::Infix(Operator::And) => holds,
        Operation::Infix(Operator::Or) => !holds,
        _ => false,
    }
}

// From where on each of the first operations of a chain gives that.
fn parts_from(links: &[TypedLink], count: usize, holds: bool) -> usize {
    let mut begin = 0;
    for at in 0..links.len() {
        if at < count && !splits(links[at].operation, holds) {
            begin = at + 1;
        }
    }
    begin
}

impl<'e> Tried<'e> {
    /// These ranges.
    pub(crate) fn of(alloc: Global, ranges: Ranges) -> Tried<'e> {
        Tried {
            ranges,
            before: Vec::new(alloc),
        }
    }

    /// How much was narrowed so far.
    pub(crate) fn mark(&self) -> usize {
        self.before.len()
    }

    /// Takes back all that was narrowed since then.
    pub(crate) fn undo(&mut self, mark: usize) -> Result<(), AllocError> {
        for _ in mark..self.before.len() {
            if let Some((name, range)) = self.before.pop() {
                self.ranges.insert_at(name, range)?;
            }
        }
        Ok(())
    }

    // Narrows the range of a variable.
    fn set(&mut self, name: &'e VariableName, range: Interval) -> Result<(), AllocError> {
        let before = self.ranges.find_at(name);
        self.before.push((name, before))?;
        self.ranges.insert_at(name, range)
    }

    // Narrows a variable that is on the left of a relation which holds, if the right is one number.
    fn relate(
        &mut self,
        left: &'e TypedExpr,
        operator: Operator,
        right: &TypedExpr,
    ) -> Result<(), AllocError> {
        let other = range(right, &self.ranges).range;
        match variable_in(left) {
            Some(name) if other.low == other.high => {
                let met = meets(operator, other.low, self.ranges.find_at(name));
                self.set(name, met)
            }
            _ => Ok(()),
        }
    }

    // Narrows the variables of a relation which holds, or fails.
    fn assume_relation(
        &mut self,
        first: &'e TypedExpr,
        link: &'e TypedLink,
        holds: bool,
    ) -> Result<(), AllocError> {
        match link.operation {
            Operation::Infix(operator) if !is_truth(link.of_type) => {
                let operator = if holds { operator } else { opposite(operator) };
                self.relate(first, operator, &link.operand)?;
                self.relate(&link.operand, mirrored(operator), first)
            }
            _ => Ok(()),
        }
    }

    /// Narrows the ranges to those in which a condition holds, or fails. Where nothing would be left of a range, it stays.
    #[cycle(assuming)]
    pub(crate) fn assume(
        &mut self,
        condition: &'e TypedExpr,
        holds: bool,
    ) -> Result<(), AllocError> {
        match condition {
            TypedExpr::Read(name) => {
                let only = if holds { 1 } else { 0 };
                self.set(
                    name,
                    Interval {
                        low: only,
                        high: only,
                    },
                )
            }
            TypedExpr::Unary(Operation::Not, _, operand) => self.assume(operand, !holds),
            TypedExpr::Chain(first, links) => {
                self.assume_chain(first, links, links.len(), holds)
            }
            TypedExpr::Constant(_) | TypedExpr::Element(_, _, _, _) | TypedExpr::Unary(_, _, _) => {
                Ok(())
            }
        }
    }

    /// Narrows the ranges to those in which a chain of so many operations holds, or fails: of these links, the first.
    #[cycle(assuming)]
    pub(crate) fn assume_chain(
        &mut self,
        first: &'e TypedExpr,
        links: &'e [TypedLink],
        count: usize,
        holds: bool,
    ) -> Result<(), AllocError> {
        let begin = parts_from(links, count, holds);
        if begin == 0 {
            self.assume(first, holds)?;
        } else if begin == 1 {
            if let Some(link) = links.first() {
                self.assume_relation(first, link, holds)?;
            }
        }
        let mut at: usize = 0;
        for link in links {
            if begin <= at && at < count {
                self.assume(&link.operand, holds)?;
            }
            at = at.saturating_add(1);
        }
        Ok(())
    }
}
