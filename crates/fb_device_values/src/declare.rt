//! Variables that a store is to have.

ghost use Rattle.std.specs.Prelude.{◌≡◌, ◌++◌, ◌∷◌, [], map, OnOk};
ghost use Rattle.st_exec.specs.Cells.{declared};
ghost use Rattle.fb_device_values.specs.Drafts.{cells_in};
ghost use Rattle.fb_device_values.specs.Filling.{variable_cells, input_cell};

use crate::draft::Draft;
use crate::number::{bounds_if, input_declared, input_number, start_number};
use fb_flat::{Body, Input};
use fb_types_blocks::Variables;
use std::alloc::{AllocError, Global};

/// Adds a variable at the end.
pub(crate) fn add(
    alloc: Global,
    drafts: &mut Vec<Draft>,
    name: &str,
    bounds: Option<(i64, i64)>,
    number: i64,
) -> Result<(), AllocError>
    ensures { OnOk result (cells_in drafts.new.items ≡ cells_in drafts.old.items ++ declared name.now bounds number ∷ []) }
{
    let name = String::from_str(alloc, name)?;
    drafts.push(Draft {
        name,
        bounds,
        number,
    })?;
    Ok(())
}

/// Adds variables with their start values.
pub(crate) fn add_variables(
    alloc: Global,
    drafts: &mut Vec<Draft>,
    variables: &Variables,
) -> Result<(), AllocError>
    ensures { OnOk result (cells_in drafts.new.items ≡ cells_in drafts.old.items ++ variable_cells variables.now) }
{
    for index in 0..variables.len() {
        let Some((name, variable)) = variables.get_index(index) else {
            return Ok(());
        };
        add(
            alloc,
            drafts,
            name.as_str(),
            variable.bounds,
            start_number(variable),
        )?;
    }
    Ok(())
}

// Adds an input of a block.
fn add_input(
    alloc: Global,
    drafts: &mut Vec<Draft>,
    body: &Body,
    input: &Input,
) -> Result<(), AllocError>
    ensures { OnOk result (cells_in drafts.new.items ≡ cells_in drafts.old.items ++ input_cell body.now input.now ∷ []) }
{
    let name = input.name.as_str();
    let variable = input_declared(body, name);
    let number = input_number(&input.source, &variable);
    add(alloc, drafts, name, bounds_if(&variable), number)
}

/// Adds the inputs of a block, each with its constant or its start value.
pub(crate) fn add_inputs(
    alloc: Global,
    drafts: &mut Vec<Draft>,
    body: &Body,
    inputs: &[Input],
) -> Result<(), AllocError>
    ensures { OnOk result (cells_in drafts.new.items ≡ cells_in drafts.old.items ++ map (input_cell body.now) inputs.now) }
{
    for input in inputs {
        add_input(alloc, drafts, body, input)?;
    }
    Ok(())
}
