//! Ends of connections.

ghost use Rattle.std.specs.Prelude.{◌≡◌, Some, None, true, false, string_bytes, IfOk, IfErr};
ghost use Rattle.std.specs.Option.{option_map};
ghost use Rattle.fb_model.specs.Typing.{body_named};
ghost use Rattle.fb_model.specs.System as book;
ghost use Rattle.fb_tree.specs.Files as trees_of;
ghost use Rattle.fb_tree.specs.Words.{word_of};
ghost use Rattle.fb_types_blocks.specs.Views.{face_of};
ghost use Rattle.fb_faults.specs.declared.typing.TypeFault.TheVariants.{OutOfMemory, UnknownName, BadConnection};
ghost use Rattle.fb_types_networks.specs.Views.{names_of, body_of, end_of};
ghost use Rattle.fb_words.specs.declared.end.Carried.TheVariants.{Events, Values};
ghost use Rattle.fb_types_networks.specs.Ends.{inner_of, IsTabled};
ghost use Rattle.fb_model.specs.NetworkFaults.{own_port, inner_port, is_own_port, is_inner_port, IsOwnEnd, IsInnerEnd, IsPortEnd};
ghost use Rattle.fb_model.specs.NetworkFaults.{IsWrongPort, IsOwnFault, IsInnerFault, IsEndFault};

use crate::face::{has_event, type_in};
use crate::typed::{Body, End, Instance};
use fb_faults::TypeFault;
use fb_tree::{Name, PortTree};
use fb_types_blocks::Face;
use fb_words::{Carried, ElemType, Way};
use indexmap::IndexSet;

/// Where connections lie: the interface around them, and the instances with the table of their names, in order.
#[derive(Clone, Copy)]
pub struct Site<'a> {
    pub face: &'a Face,
    pub names: &'a IndexSet<String>,
    pub instances: &'a [Instance],
}

// What events there are carry.
fn events_if(there: bool) -> Option<Carried>
    ensures there { there ≡ true → result ≡ Some Events }
    ensures absent { there ≡ false → result ≡ None }
{
    if there { Some(Carried::Events) } else { None }
}

// What values of a type carry.
fn values_of(of: Option<ElemType>) -> Option<Carried>
    ensures { result ≡ option_map Values of }
{
    Some(Carried::Values(of?))
}

// What an own port of this name carries. The inputs of a composite are sources inside it, and its outputs targets.
fn own_port(way: Way, face: &Face, name: &str) -> Option<Carried>
    ensures { result ≡ own_port way (face_of face.now) name.now }
{
    match way {
        Way::EventSource => events_if(has_event(&face.event_inputs, name)),
        Way::EventTarget => events_if(has_event(&face.event_outputs, name)),
        Way::ValueSource => values_of(type_in(&face.inputs, name)),
        Way::ValueTarget => values_of(type_in(&face.outputs, name)),
    }
}

// What a port of an instance carries.
fn inner_port(way: Way, body: &Body, name: &str) -> Option<Carried>
    ensures { result ≡ inner_port way (body_of body.now) name.now }
{
    match way {
        Way::EventSource => events_if(body.has_event_output(name)),
        Way::EventTarget => events_if(body.has_event_input(name)),
        Way::ValueSource => values_of(body.output(name)),
        Way::ValueTarget => values_of(body.input(name)),
    }
}

// Whether an interface has a port of this name.
fn is_own_port(face: &Face, name: &str) -> bool
    ensures { result ≡ is_own_port (face_of face.now) name.now }
{
    own_port(Way::EventSource, face, name).is_some()
        || own_port(Way::EventTarget, face, name).is_some()
        || own_port(Way::ValueSource, face, name).is_some()
        || own_port(Way::ValueTarget, face, name).is_some()
}

// Whether an instance has a port of this name.
fn is_inner_port(body: &Body, name: &str) -> bool
    ensures { result ≡ is_inner_port (body_of body.now) name.now }
{
    inner_port(Way::EventSource, body, name).is_some()
        || inner_port(Way::EventTarget, body, name).is_some()
        || inner_port(Way::ValueSource, body, name).is_some()
        || inner_port(Way::ValueTarget, body, name).is_some()
}

// Why a port cannot stand at its end: it is another kind of port, or there is none.
fn wrong(is_port: bool, at: usize, name: &Name) -> TypeFault
    ensures { IsWrongPort is_port at (word_of name.now) result }
{
    if is_port {
        TypeFault::BadConnection(at)
    } else {
        TypeFault::UnknownName(name.at)
    }
}

// An end that is an own port.
fn own_end(face: &Face, way: Way, at: usize, name: &Name) -> Result<(End, Carried), TypeFault>
    ensures end { IfOk result (λ x. IsOwnEnd way (face_of face.now) (word_of name.now) (end_of x.0) x.1) }
    ensures refused { IfErr result (IsOwnFault way (face_of face.now) at (word_of name.now)) }
{
    match own_port(way, face, name.text.as_str()) {
        Some(carried) => {
            let port = name.text.clone()?;
            let instance = None;
            Ok((End { instance, port }, carried))
        }
        None => Err(wrong(is_own_port(face, name.text.as_str()), at, name)),
    }
}

// An end that is a port of an instance with this body.
fn inner_end(
    body: &Body,
    way: Way,
    at: usize,
    instance: &Name,
    name: &Name,
) -> Result<(End, Carried), TypeFault>
    ensures end { IfOk result (λ x. IsInnerEnd way (body_of body.now) (word_of instance.now) (word_of name.now) (end_of x.0) x.1) }
    ensures refused { IfErr result (IsInnerFault way (body_of body.now) at (word_of name.now)) }
{
    match inner_port(way, body, name.text.as_str()) {
        Some(carried) => {
            let port = name.text.clone()?;
            let instance = Some(instance.text.clone()?);
            Ok((End { instance, port }, carried))
        }
        None => Err(wrong(is_inner_port(body, name.text.as_str()), at, name)),
    }
}

impl<'a> Site<'a> {
    // The body of the instance of a name.
    fn body(&self, name: &Name) -> Result<&'a Body, TypeFault>
        ensures found { IsTabled (names_of self.now.names.now) self.now.instances.now → IfOk result (λ b. body_named (inner_of self.now.instances.now) (string_bytes name.now.text) ≡ Some (body_of b.now)) }
        ensures refused { IsTabled (names_of self.now.names.now) self.now.instances.now → IfErr result (λ f. (body_named (inner_of self.now.instances.now) (string_bytes name.now.text) ≡ None) × (f ≡ UnknownName name.now.at)) }
    {
        match self.names.get_index_of(name.text.as_str()) {
            Some(index) => match self.instances.get(index) {
                Some(instance) => Ok(&instance.body),
                None => Err(TypeFault::UnknownName(name.at)),
            },
            None => Err(TypeFault::UnknownName(name.at)),
        }
    }

    /// The end that a port is, and what it carries. `at` is the offset of the connection's TO.
    pub fn end(&self, way: Way, at: usize, port: &PortTree) -> Result<(End, Carried), TypeFault>
        ensures end { IsTabled (names_of self.now.names.now) self.now.instances.now → IfOk result (λ x. IsPortEnd way (face_of self.now.face.now) (inner_of self.now.instances.now) (trees_of.port_of port.now) (end_of x.0) x.1) }
        ensures refused { IsTabled (names_of self.now.names.now) self.now.instances.now → IfErr result (IsEndFault way (face_of self.now.face.now) (inner_of self.now.instances.now) at (trees_of.port_of port.now)) }
    {
        match &port.second {
            Some(name) => inner_end(self.body(&port.first)?, way, at, &port.first, name),
            None => own_end(self.face, way, at, &port.first),
        }
    }
}
