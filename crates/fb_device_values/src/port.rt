//! The outputs of services.

ghost use Rattle.std.specs.Prelude.{◌≡◌, ◌++◌, ◌≤◌, length, map, string_bytes, OnOk};
ghost use Rattle.fb_model.specs.Services.{service_outputs};
ghost use Rattle.fb_types_services.specs.Views.{service_of, values_of};
ghost use Rattle.fb_device_values.specs.Drafts.{cells_in};
ghost use Rattle.fb_device_values.specs.Filling.{port_cell, port_cells, most_ports};

use crate::declare::add;
use crate::draft::Draft;
use fb_types_services::Service;
use std::alloc::{AllocError, Global};

// Adds ports, which begin with 0.
fn add_ports(alloc: Global, drafts: &mut Vec<Draft>, names: &[String]) -> Result<(), AllocError>
    ensures { OnOk result (cells_in drafts.new.items ≡ cells_in drafts.old.items ++ map (λ s. port_cell (string_bytes s)) names.now) }
{
    for name in names {
        add(alloc, drafts, name.as_str(), None, 0)?;
    }
    Ok(())
}

/// Adds the outputs of a service. At most 16 values are declared; the names of more than 99 mean nothing.
pub(crate) fn add_outputs(
    alloc: Global,
    drafts: &mut Vec<Draft>,
    service: &Service,
) -> Result<(), AllocError>
    ensures { length (values_of (service_of service.now)) ≤ most_ports → OnOk result (cells_in drafts.new.items ≡ cells_in drafts.old.items ++ port_cells (service_outputs (service_of service.now))) }
{
    let names = service.outputs(alloc)?;
    add_ports(alloc, drafts, &names)
}
