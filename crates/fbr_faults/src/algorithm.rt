//! Algorithms and guards at fault.

use crate::expression::expression_fault;
use crate::found::Fault;
use crate::line::Lines;
use crate::list::body_fault;
use crate::origin::Origin;
use crate::shape::beginning;
use fb_ranges::{Ranges, copied, names_assigned};
use fb_tree::{Expr, Stmt};
use st_types::{Algo, TypedExpr};
use std::alloc::{AllocError, Global};

/// The first fault of an algorithm under the rows of its variables; nothing where it is clear. `source` is the text's tree of the same
/// statements.
pub fn algorithm_fault(
    alloc: Global,
    source: &[Stmt],
    algo: &Algo,
    rows: &Ranges,
) -> Result<Option<Fault>, AllocError> {
    let names = names_assigned(alloc, &algo.statements)?;
    let mut ranges = copied(rows)?;
    let at = (Lines { at: 0, source }).line(0).at;
    let lines = Lines { at, source };
    body_fault(alloc, rows, &algo.statements, &names, lines, &mut ranges)
}

/// The same of a guard.
pub fn guard_fault(
    _alloc: Global,
    source: &Expr,
    guard: &TypedExpr,
    rows: &Ranges,
) -> Result<Option<Fault>, AllocError> {
    let origin = Origin {
        at: beginning(source),
        source: Some(source),
    };
    expression_fault(guard, origin, rows)
}
