//! Places of typed expressions in the text.

use crate::shape::{Part, front, index, operand, operation, operation_begins};
use fb_tree::Expr;

/// The innermost place that is known of a typed expression, and what the text has there; nothing where the trees differ in shape.
#[derive(Clone, Copy)]
pub(crate) struct Origin<'a> {
    pub at: usize,
    pub source: Option<&'a Expr>,
}

impl<'a> Origin<'a> {
    // A part of what stands here; the same place where the text has no such part.
    fn moved(self, part: Part<'a>) -> Origin<'a> {
        match part {
            Some((at, source)) => Origin {
                at,
                source: Some(source),
            },
            None => Origin {
                at: self.at,
                source: None,
            },
        }
    }

    /// The operand of a unary operation.
    pub fn operand(self) -> Origin<'a> {
        match self.source {
            Some(source) => self.moved(operand(source)),
            None => self,
        }
    }

    /// The index of an element, at its `[`.
    pub fn index(self) -> Origin<'a> {
        match self.source {
            Some(source) => self.moved(index(source)),
            None => self,
        }
    }

    /// The second operand of one operation of a chain of so many, at its operator.
    pub fn operation(self, count: usize, index: usize) -> Origin<'a> {
        match self.source {
            Some(source) => self.moved(operation(source, count, index)),
            None => self,
        }
    }

    /// Where what is before one operation of a chain of so many begins.
    pub fn begins(self, count: usize, index: usize) -> usize {
        match self.source {
            Some(source) => operation_begins(source, count, index).unwrap_or(self.at),
            None => self.at,
        }
    }

    /// The first operand of a chain of so many operations.
    pub fn front(self, count: usize) -> Origin<'a> {
        match self.source {
            Some(source) => Origin {
                at: self.at,
                source: front(source, count),
            },
            None => self,
        }
    }
}
