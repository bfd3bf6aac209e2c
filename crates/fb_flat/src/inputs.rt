//! The data inputs of leaves.

ghost use Rattle.std.specs.Prelude.{◌≡◌, [], map, length, slice_get, string_bytes, IfOk, OnOk};
ghost use Rattle.std.specs.Option.{option_map};
ghost use Rattle.fb_model.specs.Store as store;
ghost use Rattle.fb_model.specs.Wires.{Serviced};
ghost use Rattle.fb_types_blocks.specs.Views.{variables_of};
ghost use Rattle.fb_types_services.specs.Views.{service_of, values_of};
ghost use Rattle.fb_flat.specs.Sources.{written_source, input_of, fed_by, written_inputs};
ghost use Rattle.fb_flat.specs.Leaves.{held_by};

use crate::flat::Input;
use crate::hold::hold;
use crate::site::Around;
use fb_types_blocks::Variables;
use fb_types_services::Service;
use std::alloc::{AllocError, Global};

// The name of the variable at an index.
fn variable_at(variables: &Variables, index: usize) -> Option<&str>
    ensures { option_map (λ s. s.now) result ≡ slice_get (store.variable_names (variables_of variables.now)) index }
{
    let (name, _) = variables.get_index(index)?;
    Some(name.as_str())
}

/// The names of variables, in order.
pub fn variable_names(alloc: Global, variables: &Variables) -> Result<Vec<String>, AllocError>
    ensures { IfOk result (λ v. map string_bytes v.items ≡ store.variable_names (variables_of variables.now)) }
{
    let mut names = Vec::new(alloc);
    for index in 0..variables.len() {
        match variable_at(variables, index) {
            Some(name) => names.push(String::from_str(alloc, name)?)?,
            None => return Ok(names),
        }
    }
    Ok(names)
}

// How many values a service has.
fn values(service: &Service) -> usize
    ensures { result ≡ length (values_of (service_of service.now)) }
{
    match service {
        Service::Input(_, types) => types.len(),
        Service::Output(_, types) => types.len(),
        Service::Publish(_, types) => types.len(),
        Service::Subscribe(_, types) => types.len(),
        Service::Delay | Service::Cycle | Service::Restart => 0,
    }
}

// The most values of a service for which there are names.
const VALUES: usize = 99;

/// The names of a service's data inputs. None of a service with more values than there are names for.
pub fn service_names(alloc: Global, service: &Service) -> Result<Vec<String>, AllocError>
    ensures { IfOk result (λ v. map string_bytes v.items ≡ written_inputs (Serviced (service_of service.now))) }
{
    if values(service) > VALUES {
        Ok(Vec::new(alloc))
    } else {
        service.inputs(alloc)
    }
}

// A data input of a leaf.
fn input(name: &str, around: &Around, alloc: Global) -> Result<Input, AllocError>
    ensures { IfOk result (λ i. input_of i ≡ (name.now, written_source (held_by around.now name.now))) }
{
    let source = hold(around, name, alloc)?;
    let name = String::from_str(alloc, name)?;
    Ok(Input { name, source })
}

// Puts data inputs of a leaf into an empty list.
fn add_inputs(
    names: &[String],
    around: &Around,
    inputs: &mut Vec<Input>,
    alloc: Global,
) -> Result<(), AllocError>
    requires { inputs.old.items ≡ [] }
    ensures { OnOk result (map input_of inputs.new.items ≡ fed_by (held_by around.now) (map string_bytes names.now)) }
{
    for name in names {
        inputs.push(input(name.as_str(), around, alloc)?)?;
    }
    Ok(())
}

/// Data inputs of a leaf.
pub fn inputs(names: &[String], around: &Around, alloc: Global) -> Result<Vec<Input>, AllocError>
    ensures { IfOk result (λ v. map input_of v.items ≡ fed_by (held_by around.now) (map string_bytes names.now)) }
{
    let mut inputs = Vec::new(alloc);
    match add_inputs(names, around, &mut inputs, alloc) {
        Ok(()) => Ok(inputs),
        Err(fault) => {
            drop(inputs);
            Err(fault)
        }
    }
}
