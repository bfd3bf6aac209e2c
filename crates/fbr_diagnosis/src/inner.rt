//! Statements and operations at fault.

use fb_ranges::Ranges;
use fb_tree::{BodyTree, ChartTree};
use fb_types_blocks::Block;
use fbr_faults::{Fault, algorithm_fault, guard_fault};
use fbr_places::Declared;
use std::alloc::{AllocError, Global};

// The first fault of the guards of a chart's transitions that leave a state.
fn state_fault(
    alloc: Global,
    chart: &ChartTree,
    block: &Block,
    state: &str,
    rows: &Ranges,
) -> Result<Option<Fault>, AllocError> {
    for (source, transition) in chart.transitions.iter().zip(&block.transitions) {
        if source.source.text.as_str() == state {
            if let (Some(told), Some(guard)) = (&source.guard, &transition.guard) {
                let found = guard_fault(alloc, &told.condition, guard, rows)?;
                if found.is_some() {
                    return Ok(found);
                }
            }
        }
    }
    Ok(None)
}

/// The first statement or operation at fault of a declared algorithm, or of the guards that leave a declared state, under the rows of variables.
pub fn declared_fault(
    alloc: Global,
    declared: Declared<'_>,
    block: &Block,
    rows: &Ranges,
) -> Result<Option<Fault>, AllocError> {
    match declared {
        Declared::Algorithm(_, algorithm) => {
            match block.procedures.get(algorithm.name.text.as_str()) {
                Some(typed) => algorithm_fault(alloc, &algorithm.body, typed, rows),
                None => Ok(None),
            }
        }
        Declared::State(tree, state) => match &tree.body {
            BodyTree::Chart(chart) => {
                state_fault(alloc, chart, block, state.name.text.as_str(), rows)
            }
            BodyTree::Network(_) => Ok(None),
        },
        _ => Ok(None),
    }
}
