//! Declarations of names and of variables, whatever is at fault in them.

use fb_faults::TypeFault;
use fb_tree::{BoundsTree, Constant, Literal, Name, VariableTree};
use fb_types_blocks::{Variable, Variables, constant, insert};
use fb_words::ElemType;
use fbr_recovery_found::Found;
use indexmap::{IndexMap, IndexSet};
use st_types::signed;
use std::alloc::{AllocError, Global};

// The most elements of an array.
const ELEMENTS: i128 = 1024;

/// Declares a name, unless there is one already; and whether there was none.
pub fn declare(
    names: &mut IndexSet<String>,
    name: &Name,
    found: &mut Found<'_>,
) -> Result<bool, AllocError> {
    if name.text.is_empty() {
        return Ok(false);
    }
    if insert(names, &name.text)? {
        return Ok(true);
    }
    found.typing(TypeFault::DuplicateName(name.at))?;
    found.doubt(name.text.as_str())?;
    Ok(false)
}

/// Tells of a name that is none of these.
pub(crate) fn known(is_known: bool, name: &Name, found: &mut Found<'_>) -> Result<(), AllocError> {
    if is_known {
        return Ok(());
    }
    found.typing(TypeFault::UnknownName(name.at))
}

// A bound of an array; nothing where it is no LINT number.
fn bound(value: &Constant) -> Option<i64> {
    let Literal::Whole(negative, size) = value.value else {
        return None;
    };
    i64::try_from(signed(negative, size)).ok()
}

// The bounds of an array whose first name is at a byte; those of one element where they are at fault.
fn bounds_of(
    bounds: &BoundsTree,
    at: usize,
    found: &mut Found<'_>,
) -> Result<(i64, i64), AllocError> {
    let fault = match (bound(&bounds.low), bound(&bounds.high)) {
        (None, _) => TypeFault::BadLiteral(bounds.low.at),
        (_, None) => TypeFault::BadLiteral(bounds.high.at),
        (Some(low), Some(high)) => {
            let distance = i128::from(high).saturating_sub(i128::from(low));
            if distance < 0 {
                TypeFault::BadLiteral(bounds.high.at)
            } else if distance >= ELEMENTS {
                TypeFault::Limit(at)
            } else {
                return Ok((low, high));
            }
        }
    };
    found.typing(fault)?;
    Ok((0, 0))
}

// A start value of a type; nothing where it is at fault.
fn start_of(
    of_type: ElemType,
    tree: &VariableTree,
    found: &mut Found<'_>,
) -> Result<Option<i64>, AllocError> {
    let Some(start) = &tree.start else {
        return Ok(None);
    };
    match constant(of_type, start.at, &start.value) {
        Ok(number) => Ok(Some(number)),
        Err(fault) => {
            found.typing(fault)?;
            Ok(None)
        }
    }
}

// What the names of a declaration stand for.
fn variable_of(tree: &VariableTree, found: &mut Found<'_>) -> Result<Variable, AllocError> {
    let bounds = match (&tree.bounds, tree.names.first()) {
        (Some(bounds), Some(name)) => Some(bounds_of(bounds, name.at, found)?),
        _ => None,
    };
    let start = start_of(tree.of_type, tree, found)?;
    Ok(Variable {
        of_type: tree.of_type,
        bounds,
        start,
    })
}

/// The variables of declarations, no more than so many: of a name that is there already none.
pub(crate) fn variables_of(
    alloc: Global,
    list: &[VariableTree],
    most: usize,
    names: &mut IndexSet<String>,
    found: &mut Found<'_>,
) -> Result<Variables, AllocError> {
    let mut variables = IndexMap::new(alloc);
    let mut left = most;
    for tree in list {
        let variable = variable_of(tree, found)?;
        for name in &tree.names {
            if left == 0 {
                found.typing(TypeFault::Limit(name.at))?;
            }
            // After the first one too many the count does not come back to 0.
            left = left.wrapping_sub(1);
            if declare(names, name, found)? {
                variables.insert(name.text.clone()?, variable)?;
            }
        }
    }
    Ok(variables)
}
