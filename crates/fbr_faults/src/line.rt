//! Places of typed statements in the text.

use crate::origin::Origin;
use fb_tree::{Arm, Branch, Expr, Stmt};

/// The innermost place that is known of a typed statement, and what the text has there; nothing where the trees differ in shape.
#[derive(Clone, Copy)]
pub(crate) struct Line<'a> {
    pub at: usize,
    pub source: Option<&'a Stmt>,
}

/// The statements of the text that typed ones were, and the innermost place that is known of them; none where the trees differ in shape.
#[derive(Clone, Copy)]
pub(crate) struct Lines<'a> {
    pub at: usize,
    pub source: &'a [Stmt],
}

// Where an IF begins, if it has a condition.
fn begins(branches: &[Branch]) -> Option<usize> {
    let first = branches.first()?;
    Some(first.at)
}

// Where a statement begins.
fn place(source: &Stmt) -> Option<usize> {
    match source {
        Stmt::Assign(name, _, _) | Stmt::AssignElement(name, _, _, _, _) => Some(name.at),
        Stmt::If(branches, _) => begins(branches),
        Stmt::Case(at, _, _, _) | Stmt::For(at, _, _, _, _, _) => Some(*at),
    }
}

// The value or the selector of a statement.
fn value_of(source: &Stmt) -> Option<&Expr> {
    match source {
        Stmt::Assign(_, _, value) | Stmt::AssignElement(_, _, _, _, value) => Some(value),
        Stmt::Case(_, selector, _, _) => Some(selector),
        Stmt::If(_, _) | Stmt::For(_, _, _, _, _, _) => None,
    }
}

// The conditions of a statement, each with what is done where it holds.
fn branches_of(source: &Stmt) -> &[Branch] {
    match source {
        Stmt::If(branches, _) => branches,
        _ => &[],
    }
}

// The arms of a statement.
fn arms_of(source: &Stmt) -> &[Arm] {
    match source {
        Stmt::Case(_, _, arms, _) => arms,
        _ => &[],
    }
}

// What a statement does where no condition holds, and no label is met; and what it does in each iteration.
fn rest_of(source: &Stmt) -> &[Stmt] {
    match source {
        Stmt::If(_, other) | Stmt::Case(_, _, _, other) => other,
        Stmt::For(_, _, _, _, _, body) => body,
        Stmt::Assign(_, _, _) | Stmt::AssignElement(_, _, _, _, _) => &[],
    }
}

impl<'a> Lines<'a> {
    /// One of the statements.
    pub fn line(self, index: usize) -> Line<'a> {
        match self.source.get(index) {
            Some(source) => Line {
                at: place(source).unwrap_or(self.at),
                source: Some(source),
            },
            None => Line {
                at: self.at,
                source: None,
            },
        }
    }
}

impl<'a> Line<'a> {
    // Statements in this one, with no place of their own.
    fn lines(self, source: &'a [Stmt]) -> Lines<'a> {
        Lines {
            at: self.at,
            source,
        }
    }

    // An expression of the statement, with no place of its own.
    fn origin(self, source: Option<&'a Expr>) -> Origin<'a> {
        Origin {
            at: self.at,
            source,
        }
    }

    /// The value of an assignment, or the selector of a CASE.
    pub fn value(self) -> Origin<'a> {
        match self.source {
            Some(source) => self.origin(value_of(source)),
            None => self.origin(None),
        }
    }

    /// The index of an assigned element, at its `[`.
    pub fn index(self) -> Origin<'a> {
        match self.source {
            Some(Stmt::AssignElement(_, at, index, _, _)) => Origin {
                at: *at,
                source: Some(index),
            },
            _ => self.origin(None),
        }
    }

    /// The first value of a FOR.
    pub fn first(self) -> Origin<'a> {
        match self.source {
            Some(Stmt::For(_, _, first, _, _, _)) => self.origin(Some(&first.value)),
            _ => self.origin(None),
        }
    }

    /// The last value of a FOR.
    pub fn last(self) -> Origin<'a> {
        match self.source {
            Some(Stmt::For(_, _, _, last, _, _)) => self.origin(Some(&last.value)),
            _ => self.origin(None),
        }
    }

    // A branch of an IF.
    fn branch(self, index: usize) -> Option<&'a Branch> {
        branches_of(self.source?).get(index)
    }

    // An arm of a CASE.
    fn arm(self, index: usize) -> Option<&'a Arm> {
        arms_of(self.source?).get(index)
    }

    /// A condition of an IF, at its IF or ELSIF.
    pub fn condition(self, index: usize) -> Origin<'a> {
        match self.branch(index) {
            Some(branch) => Origin {
                at: branch.at,
                source: Some(&branch.condition),
            },
            None => self.origin(None),
        }
    }

    /// What is done where a condition of an IF holds.
    pub fn branch_body(self, index: usize) -> Lines<'a> {
        match self.branch(index) {
            Some(branch) => Lines {
                at: branch.at,
                source: &branch.body,
            },
            None => self.lines(&[]),
        }
    }

    /// What an arm of a CASE does.
    pub fn arm_body(self, index: usize) -> Lines<'a> {
        match self.arm(index) {
            Some(arm) => self.lines(&arm.body),
            None => self.lines(&[]),
        }
    }

    /// What an IF or a CASE does otherwise, or a FOR in each iteration.
    pub fn rest(self) -> Lines<'a> {
        match self.source {
            Some(source) => self.lines(rest_of(source)),
            None => self.lines(&[]),
        }
    }
}
