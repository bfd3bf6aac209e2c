//! The names that there are of a kind.

use crate::wanted::Wanted;
use fb_tree::{BlockTree, BodyTree, ChartTree, EventTree, InstanceTree, Name, VariableTree};
use fb_types_services::points::{RD, SD};
use std::alloc::{AllocError, Global};

/// Adds a name.
pub fn add_name(name: &Name, names: &mut Vec<String>) -> Result<(), AllocError> {
    names.push(name.text.clone()?)?;
    Ok(())
}

// Adds the names of events.
fn add_events(events: &[EventTree], names: &mut Vec<String>) -> Result<(), AllocError> {
    for event in events {
        add_name(&event.name, names)?;
    }
    Ok(())
}

// Adds the names of variables.
fn add_variables(declared: &[VariableTree], names: &mut Vec<String>) -> Result<(), AllocError> {
    for variables in declared {
        for name in &variables.names {
            add_name(name, names)?;
        }
    }
    Ok(())
}

/// Adds the names of ports that an instance has for the values of its square brackets, as inputs or as outputs.
pub fn add_values(
    alloc: Global,
    instance: &InstanceTree,
    wanted: Wanted,
    names: &mut Vec<String>,
) -> Result<(), AllocError> {
    let prefix = match (instance.of_type.text.as_str(), wanted) {
        ("OUTPUT" | "PUBLISH", Wanted::Input) => SD,
        ("INPUT" | "SUBSCRIBE", Wanted::Output) => RD,
        _ => return Ok(()),
    };
    if let Some(types) = &instance.types {
        for index in 0..types.len() {
            let number = index.saturating_add(1);
            names.push(format!(in alloc; "{prefix}{number}")?)?;
        }
    }
    Ok(())
}

// Adds names of a chart.
fn add_of_chart(
    chart: &ChartTree,
    wanted: Wanted,
    names: &mut Vec<String>,
) -> Result<(), AllocError> {
    match wanted {
        Wanted::State => {
            for state in &chart.states {
                add_name(&state.name, names)?;
            }
        }
        Wanted::Algorithm => {
            for algorithm in &chart.algorithms {
                add_name(&algorithm.name, names)?;
            }
        }
        _ => add_variables(&chart.internals, names)?,
    }
    Ok(())
}

/// Adds names of a block type.
pub fn add_of_block(
    block: &BlockTree,
    wanted: Wanted,
    names: &mut Vec<String>,
) -> Result<(), AllocError> {
    match wanted {
        Wanted::EventInput => return add_events(&block.event_inputs, names),
        Wanted::EventOutput => return add_events(&block.event_outputs, names),
        Wanted::Input => return add_variables(&block.inputs, names),
        Wanted::Output => return add_variables(&block.outputs, names),
        Wanted::Variable => {
            add_variables(&block.inputs, names)?;
            add_variables(&block.outputs, names)?;
        }
        _ => {}
    }
    match &block.body {
        BodyTree::Chart(chart) => add_of_chart(chart, wanted, names),
        BodyTree::Network(_) => Ok(()),
    }
}
