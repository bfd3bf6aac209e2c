//! Types of execution control charts and algorithms, part by part.

use crate::variables::{declare, known, variables_of};
use fb_faults::{TypeFault, TypingFault};
use fb_tree::{AlgorithmTree, BlockTree, ChartTree, StateTree, Stmt, TransitionTree};
use fb_types_blocks::{Face, Variables, basic};
use fbr_recovery_found::Found;
use indexmap::{IndexMap, IndexSet};
use st_types::{Scope, Variable, resolve_algorithm, resolve_condition};
use std::alloc::{AllocError, Global};
use std::slice::from_ref;

// The most states and algorithms of a block, and the most transitions.
const STATES: usize = 256;

const TRANSITIONS: usize = 1024;

// What the parts of a chart may name.
#[derive(Clone, Copy)]
struct Known<'a> {
    alloc: Global,
    face: &'a Face,
    scope: &'a Scope,
    states: &'a IndexSet<String>,
    algorithms: &'a IndexSet<String>,
}

// Adds variables to what algorithms read.
fn enlarge(scope: &mut Scope, variables: &Variables, writable: bool) -> Result<(), AllocError> {
    for index in 0..variables.len() {
        if let Some((name, variable)) = variables.get_index(index) {
            let number = scope.len();
            let entry = Variable {
                of_type: variable.of_type,
                bounds: variable.bounds,
                writable,
                number,
            };
            scope.insert(name.clone()?, entry)?;
        }
    }
    Ok(())
}

// A fault of Structured Text.
fn told(fault: TypingFault, found: &mut Found<'_>) -> Result<(), AllocError> {
    found.typing(TypeFault::from(fault))
}

// Types statements, each by itself.
#[cycle(typing)]
fn type_statements(
    alloc: Global,
    list: &[Stmt],
    scope: &Scope,
    found: &mut Found<'_>,
) -> Result<(), AllocError> {
    for statement in list {
        match resolve_algorithm(alloc, scope, from_ref(statement)) {
            Ok(_) => {}
            Err(fault) => {
                told(fault, found)?;
                type_inside(alloc, statement, scope, found)?;
            }
        }
    }
    Ok(())
}

// Types the statements in a statement.
#[cycle(typing)]
fn type_inside(
    alloc: Global,
    statement: &Stmt,
    scope: &Scope,
    found: &mut Found<'_>,
) -> Result<(), AllocError> {
    match statement {
        Stmt::Assign(_, _, _) | Stmt::AssignElement(_, _, _, _, _) => Ok(()),
        Stmt::If(branches, otherwise) => {
            for branch in branches {
                type_statements(alloc, &branch.body, scope, found)?;
            }
            type_statements(alloc, otherwise, scope, found)
        }
        Stmt::Case(_, _, arms, otherwise) => {
            for arm in arms {
                type_statements(alloc, &arm.body, scope, found)?;
            }
            type_statements(alloc, otherwise, scope, found)
        }
        Stmt::For(_, _, _, _, _, body) => type_statements(alloc, body, scope, found),
    }
}

impl Known<'_> {
    // Types the actions of a state.
    fn type_state(self, state: &StateTree, found: &mut Found<'_>) -> Result<(), AllocError> {
        for action in &state.actions {
            if let Some(name) = &action.algorithm {
                known(self.algorithms.contains(name.text.as_str()), name, found)?;
            }
            if let Some(name) = &action.output {
                let outputs = &self.face.event_outputs;
                known(outputs.contains_key(name.text.as_str()), name, found)?;
            }
        }
        Ok(())
    }

    // Types a transition. Where no states were read, none is known.
    fn type_transition(
        self,
        transition: &TransitionTree,
        found: &mut Found<'_>,
    ) -> Result<(), AllocError> {
        if !self.states.is_empty() {
            for name in [&transition.source, &transition.target] {
                known(self.states.contains(name.text.as_str()), name, found)?;
            }
        }
        if let Some(name) = &transition.event {
            let inputs = &self.face.event_inputs;
            known(inputs.contains_key(name.text.as_str()), name, found)?;
        }
        if let Some(guard) = &transition.guard {
            match resolve_condition(self.alloc, self.scope, guard.at, &guard.condition) {
                Ok(_) => {}
                Err(fault) => told(fault, found)?,
            }
        }
        Ok(())
    }

    // Types all parts of a chart.
    fn type_parts(self, chart: &ChartTree, found: &mut Found<'_>) -> Result<(), AllocError> {
        for algorithm in &chart.algorithms {
            type_statements(self.alloc, &algorithm.body, self.scope, found)?;
        }
        for state in &chart.states {
            self.type_state(state, found)?;
        }
        for transition in &chart.transitions {
            self.type_transition(transition, found)?;
        }
        Ok(())
    }
}

// Tells what a chart has too many of.
fn tell_limits(chart: &ChartTree, found: &mut Found<'_>) -> Result<(), AllocError> {
    if let Some(state) = chart.states.get(STATES) {
        found.typing(TypeFault::Limit(state.name.at))?;
    }
    if let Some(transition) = chart.transitions.get(TRANSITIONS) {
        found.typing(TypeFault::Limit(transition.source.at))?;
    }
    if let Some(algorithm) = chart.algorithms.get(STATES) {
        found.typing(TypeFault::Limit(algorithm.name.at))?;
    }
    Ok(())
}

// The names of algorithms.
fn algorithm_names(
    alloc: Global,
    algorithms: &[AlgorithmTree],
    found: &mut Found<'_>,
) -> Result<IndexSet<String>, AllocError> {
    let mut names = IndexSet::new(alloc);
    for algorithm in algorithms {
        declare(&mut names, &algorithm.name, found)?;
    }
    Ok(names)
}

// The names of states.
fn state_names(
    alloc: Global,
    states: &[StateTree],
    found: &mut Found<'_>,
) -> Result<IndexSet<String>, AllocError> {
    let mut names = IndexSet::new(alloc);
    for state in states {
        declare(&mut names, &state.name, found)?;
    }
    Ok(names)
}

// Whether a basic block type is well typed.
fn is_typed(alloc: Global, block: &BlockTree, chart: &ChartTree) -> Result<bool, AllocError> {
    match basic(alloc, block, chart) {
        Ok(_) => Ok(true),
        Err(TypeFault::OutOfMemory) => Err(AllocError),
        Err(_) => Ok(false),
    }
}

// Adds what algorithms and guards read, and may write: inputs, outputs and internals.
fn fill(scope: &mut Scope, face: &Face, internals: &Variables) -> Result<(), AllocError> {
    enlarge(scope, &face.inputs, false)?;
    enlarge(scope, &face.outputs, true)?;
    enlarge(scope, internals, true)
}

// All that they read.
fn scope_of(alloc: Global, face: &Face, internals: &Variables) -> Result<Scope, AllocError> {
    let mut scope = IndexMap::new(alloc);
    fill(&mut scope, face, internals)?;
    Ok(scope)
}

// Types the parts of a chart, whose states have these names. (Each of these functions has one value to end, since each exit ends all that a function has.)
fn type_among(
    alloc: Global,
    chart: &ChartTree,
    face: &Face,
    scope: &Scope,
    states: &IndexSet<String>,
    found: &mut Found<'_>,
) -> Result<(), AllocError> {
    let algorithms = algorithm_names(alloc, &chart.algorithms, found)?;
    let names = Known {
        alloc,
        face,
        scope,
        states,
        algorithms: &algorithms,
    };
    names.type_parts(chart, found)
}

// Types the parts of a chart, whose statements read and write these variables.
fn type_scoped(
    alloc: Global,
    chart: &ChartTree,
    face: &Face,
    scope: &Scope,
    found: &mut Found<'_>,
) -> Result<(), AllocError> {
    let states = state_names(alloc, &chart.states, found)?;
    type_among(alloc, chart, face, scope, &states, found)
}

// Types the parts of a chart, which has these internals.
fn type_with(
    alloc: Global,
    chart: &ChartTree,
    face: &Face,
    internals: &Variables,
    found: &mut Found<'_>,
) -> Result<(), AllocError> {
    let scope = scope_of(alloc, face, internals)?;
    type_scoped(alloc, chart, face, &scope, found)
}

/// Types the chart of a basic block type with this interface, which declares these names. It is typed part by part where it is not whole, or not well typed.
pub(crate) fn type_chart(
    alloc: Global,
    block: &BlockTree,
    chart: &ChartTree,
    face: &Face,
    names: &mut IndexSet<String>,
    found: &mut Found<'_>,
) -> Result<(), AllocError> {
    if is_typed(alloc, block, chart)? {
        return Ok(());
    }
    tell_limits(chart, found)?;
    let internals = variables_of(alloc, &chart.internals, usize::MAX, names, found)?;
    type_with(alloc, chart, face, &internals, found)
}
