//! The variables of instances.

use fb_flat::{Body, Leaf};
use fb_types_blocks::Variables;
use fb_types_services::Service;
use fb_words::ElemType;
use std::alloc::{AllocError, Global};

/// A variable of an instance: its name, its type, and the lowest and the highest index of an array.
#[derive(Drop)]
pub(crate) struct Held {
    pub(crate) name: String,
    pub(crate) of_type: ElemType,
    pub(crate) bounds: Option<(i64, i64)>,
}

// Adds the variables of these declarations.
fn add_declared(variables: &Variables, held: &mut Vec<Held>) -> Result<(), AllocError> {
    for index in 0..variables.len() {
        if let Some((name, variable)) = variables.get_index(index) {
            held.push(Held {
                name: name.clone()?,
                of_type: variable.of_type,
                bounds: variable.bounds,
            })?;
        }
    }
    Ok(())
}

// Adds the ports of a service that have these names.
fn add_ports(service: &Service, names: &[String], held: &mut Vec<Held>) -> Result<(), AllocError> {
    for name in names {
        let found = service
            .input(name.as_str())
            .or(service.output(name.as_str()));
        if let Some(of_type) = found {
            held.push(Held {
                name: name.clone()?,
                of_type,
                bounds: None,
            })?;
        }
    }
    Ok(())
}

/// The variables of an instance: inputs, outputs, internal variables, each in the order of its type.
pub(crate) fn variables_of(alloc: Global, leaf: &Leaf) -> Result<Vec<Held>, AllocError> {
    let mut held = Vec::new(alloc);
    match &leaf.body {
        Body::Basic(block) => {
            add_declared(&block.face.inputs, &mut held)?;
            add_declared(&block.face.outputs, &mut held)?;
            add_declared(&block.internals, &mut held)?;
        }
        Body::Served(service) => {
            let inputs = service.inputs(alloc)?;
            add_ports(service, &inputs, &mut held)?;
            let outputs = service.outputs(alloc)?;
            add_ports(service, &outputs, &mut held)?;
        }
    }
    Ok(held)
}
