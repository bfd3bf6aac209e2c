//! The ports of what instances are made of.

ghost use Rattle.std.specs.Prelude.{◌≡◌};
ghost use Rattle.fb_model.specs.Names.{is_in};
ghost use Rattle.fb_model.specs.Typing.{event_inputs_of, event_outputs_of};
ghost use Rattle.fb_model.specs.Wires.{inputs_of};
ghost use Rattle.fb_model.specs.NetworkTyping.{variable_named, outputs_of};
ghost use Rattle.fb_types_services.specs.Views.{typed_as};
ghost use Rattle.fb_types_networks.specs.Views.{body_of};

use crate::face::{has_event, type_in};
use crate::typed::Body;
use fb_words::ElemType;

impl Body {
    /// Whether there is an event input of this name.
    pub fn has_event_input(&self, name: &str) -> bool
        ensures { result ≡ is_in name.now (event_inputs_of (body_of self.now)) }
    {
        match self {
            Body::Basic(block) => has_event(&block.face.event_inputs, name),
            Body::Served(service) => service.has_event_input(name),
            Body::Composite(face, _) => has_event(&face.event_inputs, name),
        }
    }

    /// Whether there is an event output of this name.
    pub fn has_event_output(&self, name: &str) -> bool
        ensures { result ≡ is_in name.now (event_outputs_of (body_of self.now)) }
    {
        match self {
            Body::Basic(block) => has_event(&block.face.event_outputs, name),
            Body::Served(service) => service.has_event_output(name),
            Body::Composite(face, _) => has_event(&face.event_outputs, name),
        }
    }

    /// The type of the data input of this name.
    pub fn input(&self, name: &str) -> Option<ElemType>
        ensures { typed_as result (variable_named (inputs_of (body_of self.now)) name.now) }
    {
        match self {
            Body::Basic(block) => type_in(&block.face.inputs, name),
            Body::Served(service) => service.input(name),
            Body::Composite(face, _) => type_in(&face.inputs, name),
        }
    }

    /// The type of the data output of this name.
    pub fn output(&self, name: &str) -> Option<ElemType>
        ensures { typed_as result (variable_named (outputs_of (body_of self.now)) name.now) }
    {
        match self {
            Body::Basic(block) => type_in(&block.face.outputs, name),
            Body::Served(service) => service.output(name),
            Body::Composite(face, _) => type_in(&face.outputs, name),
        }
    }
}
