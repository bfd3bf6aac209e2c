//! The values of data ports that are not connected.

ghost use Rattle.std.specs.Prelude.{◌≡◌, [], map};
ghost use Rattle.fb_model.specs.System.{start_of, start_in, constant};
ghost use Rattle.fb_model.specs.BlockTyping.{variable_of};
ghost use Rattle.fb_model.specs.Wires.{inputs_of};
ghost use Rattle.fb_types_blocks.specs.Views.{declared_of, variables_of};
ghost use Rattle.fb_types_networks.specs.Views.{parameter_of, body_of};
ghost use Rattle.fb_flat.specs.Sources.{Fixed, source_of};

use crate::flat::Source;
use fb_types_blocks::{Variable, Variables};
use fb_types_networks::{Body, Instance};

// The start value of a variable.
fn first(variable: Variable) -> Source
    ensures { source_of result ≡ Fixed (start_of (variable_of (declared_of [] variable))) }
{
    match (variable.start, variable.bounds) {
        (Some(number), _) => Source::Number(number),
        (None, None) => Source::Number(0),
        (None, Some((low, high))) => Source::Zeros(low, high),
    }
}

/// The start value of the variable of a name.
pub fn start(variables: &Variables, name: &str) -> Source
    ensures { source_of result ≡ Fixed (start_in (variables_of variables.now) name.now) }
{
    match variables.get(name).copied() {
        None => Source::Number(0),
        Some(variable) => first(variable),
    }
}

// The start value of a data input of an instance.
fn input_start(instance: &Instance, port: &str) -> Source
    ensures { source_of result ≡ Fixed (start_in (inputs_of (body_of instance.now.body)) port.now) }
{
    match &instance.body {
        Body::Basic(block) => start(&block.face.inputs, port),
        Body::Served(_) => Source::Number(0),
        Body::Composite(face, _) => start(&face.inputs, port),
    }
}

/// The parameter of a data input of an instance, else its start value.
pub fn given(instance: &Instance, port: &str) -> Source
    ensures { source_of result ≡ Fixed (constant (map parameter_of instance.now.parameters.items) (inputs_of (body_of instance.now.body)) port.now) }
{
    for parameter in &instance.parameters {
        if parameter.name.as_str() == port {
            return Source::Number(parameter.value);
        }
    }
    input_start(instance, port)
}
