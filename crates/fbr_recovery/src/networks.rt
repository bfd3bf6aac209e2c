//! Networks, instance by instance and connection by connection.

use fb_faults::TypeFault;
use fb_tree::{ConnectionTree, InstanceTree, Name, NetworkTree, PortTree};
use fb_types_blocks::Face;
use fb_types_networks::{Body, Instance, Parameter, plain, served};
use fb_types_services::{Channel, Service};
use fb_words::{ElemType, Format};
use fbr_recovery_found::Found;
use fbr_recovery_text::Reading;
use fbr_recovery_types::{Part, Types, declare};
use indexmap::{IndexMap, IndexSet};
use st_types::widens;
use std::alloc::{AllocError, Global};

/// What is known beside a network: the types, what was read of those of the text, and the interface around it, where there is one.
#[derive(Clone, Copy)]
pub(crate) struct Beside<'a> {
    pub(crate) alloc: Global,
    pub(crate) types: &'a Types,
    pub(crate) readings: &'a [Reading],
    pub(crate) face: Option<&'a Face>,
}

// What an end of a connection is.
#[derive(Clone, Copy)]
enum Way {
    EventSource,
    EventTarget,
    ValueSource,
    ValueTarget,
}

// What was found at an end of a connection.
enum End {
    // A port, with the type of its values where it has any.
    Port(Option<ElemType>),
    // It may be right once another fault is mended.
    Doubtful,
    // An instance has no such port.
    Lacking(TypeFault),
    Wrong(TypeFault),
}

// The names of the instances of a network, what these are where that is known, and the data inputs that have a value.
#[derive(Drop)]
struct Site {
    names: IndexSet<String>,
    parts: IndexMap<String, Option<Part>>,
    taken: IndexSet<String>,
}

impl Site {
    // Puts in what the instance of a name is.
    fn put(&mut self, name: &String, part: Option<Part>) -> Result<(), AllocError> {
        self.parts.insert(name.clone()?, part)?;
        Ok(())
    }
}

// The name of a port.
fn port_name(alloc: Global, instance: &str, port: &str) -> Result<String, AllocError> {
    let mut name = String::from_str(alloc, instance)?;
    name.push_str(".")?;
    name.push_str(port)?;
    Ok(name)
}

// What a port of an instance carries at an end of this kind; nothing where it cannot stand there.
fn inner_port(way: Way, body: &Body, name: &str) -> Option<Option<ElemType>> {
    match way {
        Way::EventSource => body.has_event_output(name).then_some(None),
        Way::EventTarget => body.has_event_input(name).then_some(None),
        Way::ValueSource => Some(Some(body.output(name)?)),
        Way::ValueTarget => Some(Some(body.input(name)?)),
    }
}

// The same of a port of the composite itself: its inputs are sources inside it, and its outputs targets.
fn own_port(way: Way, face: &Face, name: &str) -> Option<Option<ElemType>> {
    match way {
        Way::EventSource => face.event_inputs.contains_key(name).then_some(None),
        Way::EventTarget => face.event_outputs.contains_key(name).then_some(None),
        Way::ValueSource => Some(Some(face.inputs.get(name)?.of_type)),
        Way::ValueTarget => Some(Some(face.outputs.get(name)?.of_type)),
    }
}

// Whether an instance has a port of this name.
fn is_inner(body: &Body, name: &str) -> bool {
    body.has_event_output(name)
        || body.has_event_input(name)
        || body.output(name).is_some()
        || body.input(name).is_some()
}

// Whether an interface has a port of this name.
fn is_own(face: &Face, name: &str) -> bool {
    face.event_inputs.contains_key(name)
        || face.event_outputs.contains_key(name)
        || face.inputs.contains_key(name)
        || face.outputs.contains_key(name)
}

// What is wrong with a port at its end: it is another kind of port, or there is none.
fn wrong(is_port: bool, at: usize, name: &Name) -> End {
    End::Wrong(if is_port {
        TypeFault::BadConnection(at)
    } else {
        TypeFault::UnknownName(name.at)
    })
}

// The service of this name, whatever is at fault in the parameters of its instance.
fn service_named(alloc: Global, tree: &InstanceTree) -> Result<Option<Service>, AllocError> {
    let types = match &tree.types {
        Some(types) => types.clone()?,
        None => Vec::new(alloc),
    };
    let channel = Channel {
        number: 0,
        format: Format::First,
    };
    Ok(match tree.of_type.text.as_str() {
        "INPUT" => Some(Service::Input(0, types)),
        "OUTPUT" => Some(Service::Output(0, types)),
        "PUBLISH" => Some(Service::Publish(channel, types)),
        "SUBSCRIBE" => Some(Service::Subscribe(channel, types)),
        "E_DELAY" => Some(Service::Delay),
        "E_CYCLE" => Some(Service::Cycle),
        "E_RESTART" => Some(Service::Restart),
        _ => None,
    })
}

// The place of an unknown name.
fn unknown_at(fault: &TypeFault) -> Option<usize> {
    match fault {
        TypeFault::UnknownName(at) => Some(*at),
        _ => None,
    }
}

impl<'a> Beside<'a> {
    // Whether a name of a type is in doubt.
    fn is_doubted(self, number: Option<usize>, name: &str) -> bool {
        let reading = match number {
            Some(number) => self.readings.get(number),
            None => None,
        };
        match reading {
            Some(reading) => reading.doubts.contains(name),
            None => false,
        }
    }

    // Whether a name that a type has not may be right.
    fn is_lacking(self, number: Option<usize>, name: &str) -> bool {
        let reading = match number {
            Some(number) => self.readings.get(number),
            None => None,
        };
        match reading {
            Some(reading) => reading.is_nameless || reading.doubts.contains(name),
            None => false,
        }
    }

    // Tells a fault of the parameters of an instance, unless the parameter is in doubt.
    fn tell_parameter(
        self,
        number: usize,
        tree: &InstanceTree,
        fault: TypeFault,
        found: &mut Found<'_>,
    ) -> Result<(), AllocError> {
        for parameter in &tree.parameters {
            if Some(parameter.name.at) == unknown_at(&fault)
                && self.is_lacking(Some(number), parameter.name.text.as_str())
            {
                return Ok(());
            }
        }
        found.typing(fault)
    }

    // The parameters of an instance of a declared type, which has this body.
    fn parameters(
        self,
        number: usize,
        tree: &InstanceTree,
        body: Body,
        found: &mut Found<'_>,
    ) -> Result<Vec<Parameter>, AllocError> {
        match plain(self.alloc, tree, body) {
            Ok(instance) => {
                let Instance {
                    name,
                    at: _,
                    parameters,
                    body,
                } = instance;
                drop(name);
                drop(body);
                Ok(parameters)
            }
            Err(fault) => {
                self.tell_parameter(number, tree, fault, found)?;
                Ok(Vec::new(self.alloc))
            }
        }
    }

    // The number of the declared type of an instance; nothing where there is none, or more than one.
    fn declared(
        self,
        tree: &InstanceTree,
        found: &mut Found<'_>,
    ) -> Result<Option<usize>, AllocError> {
        let name = tree.of_type.text.as_str();
        if found.types.contains(name) {
            return Ok(None);
        }
        let number = self.types.number(name);
        if number.is_none() {
            found.typing(TypeFault::UnknownName(tree.of_type.at))?;
        }
        Ok(number)
    }

    // What an instance of a type of a number is.
    fn numbered(self, number: usize) -> Result<Option<Part>, AllocError> {
        match self.types.body(number)? {
            Some(body) => {
                let number = Some(number);
                Ok(Some(Part { body, number }))
            }
            None => Ok(None),
        }
    }

    // What an instance of a type of a number is, and its parameters.
    fn numbered_part(
        self,
        number: usize,
        tree: &InstanceTree,
        found: &mut Found<'_>,
    ) -> Result<(Option<Part>, Vec<Parameter>), AllocError> {
        let Some(body) = self.types.body(number)? else {
            return Ok((None, Vec::new(self.alloc)));
        };
        let parameters = self.parameters(number, tree, body, found)?;
        let part = self.numbered(number)?;
        Ok((part, parameters))
    }

    // What an instance of a declared type is, and its parameters.
    fn declared_part(
        self,
        tree: &InstanceTree,
        found: &mut Found<'_>,
    ) -> Result<(Option<Part>, Vec<Parameter>), AllocError> {
        match self.declared(tree, found)? {
            Some(number) => self.numbered_part(number, tree, found),
            None => Ok((None, Vec::new(self.alloc))),
        }
    }

    // What an instance of a service is whose parameters are at fault.
    fn service_part(self, tree: &InstanceTree) -> Result<Option<Part>, AllocError> {
        Ok(match service_named(self.alloc, tree)? {
            Some(service) => Some(Part {
                body: Body::Served(service),
                number: None,
            }),
            None => None,
        })
    }

    // What an instance is, and its parameters.
    fn part(
        self,
        tree: &InstanceTree,
        found: &mut Found<'_>,
    ) -> Result<(Option<Part>, Vec<Parameter>), AllocError> {
        match served(self.alloc, tree) {
            Ok(Some(instance)) => {
                let Instance {
                    name,
                    at: _,
                    parameters,
                    body,
                } = instance;
                drop(name);
                let part = Part { body, number: None };
                Ok((Some(part), parameters))
            }
            Ok(None) => self.declared_part(tree, found),
            Err(fault) => {
                found.typing(fault)?;
                let part = self.service_part(tree)?;
                Ok((part, Vec::new(self.alloc)))
            }
        }
    }

    // Whether a name of an instance is one of the interface around it.
    fn is_around(self, name: &str) -> bool {
        match self.face {
            Some(face) => is_own(face, name),
            None => false,
        }
    }

    // Tells of the name of an instance, takes the data inputs that its parameters give a value, and answers whether it is the first of its name.
    fn tell_instance(
        self,
        tree: &InstanceTree,
        parameters: &[Parameter],
        site: &mut Site,
        found: &mut Found<'_>,
    ) -> Result<bool, AllocError> {
        let name = tree.name.text.as_str();
        if self.is_around(name) {
            found.typing(TypeFault::DuplicateName(tree.name.at))?;
            found.doubt(name)?;
        }
        if !declare(&mut site.names, &tree.name, found)? {
            return Ok(false);
        }
        for parameter in parameters {
            let port = port_name(self.alloc, name, parameter.name.as_str())?;
            site.taken.insert(port)?;
        }
        Ok(true)
    }

    // Adds an instance.
    fn add_instance(
        self,
        tree: &InstanceTree,
        site: &mut Site,
        found: &mut Found<'_>,
    ) -> Result<(), AllocError> {
        let (part, parameters) = self.part(tree, found)?;
        let is_first = self.tell_instance(tree, &parameters, site, found)?;
        drop(parameters);
        if is_first {
            site.put(&tree.name.text, part)?;
        }
        Ok(())
    }

    // The instances of a network.
    fn site(self, network: &NetworkTree, found: &mut Found<'_>) -> Result<Site, AllocError> {
        let mut site = Site {
            names: IndexSet::new(self.alloc),
            parts: IndexMap::new(self.alloc),
            taken: IndexSet::new(self.alloc),
        };
        for tree in &network.instances {
            self.add_instance(tree, &mut site, found)?;
        }
        Ok(site)
    }

    // What is at an end of a connection whose TO is at a byte.
    fn end(self, site: &Site, way: Way, at: usize, port: &PortTree) -> End {
        let first = port.first.text.as_str();
        let Some(second) = &port.second else {
            let Some(face) = self.face else {
                return wrong(false, at, &port.first);
            };
            return match own_port(way, face, first) {
                Some(carried) => End::Port(carried),
                None => wrong(is_own(face, first), at, &port.first),
            };
        };
        let part = match site.parts.get(first) {
            Some(Some(part)) => part,
            Some(None) => return End::Doubtful,
            None => return wrong(false, at, &port.first),
        };
        let name = second.text.as_str();
        if self.is_doubted(part.number, name) {
            return End::Doubtful;
        }
        match inner_port(way, &part.body, name) {
            Some(carried) => End::Port(carried),
            None if is_inner(&part.body, name) => End::Wrong(TypeFault::BadConnection(at)),
            None if self.is_lacking(part.number, name) => End::Doubtful,
            None => End::Lacking(TypeFault::UnknownName(second.at)),
        }
    }

    // Tells what is wrong with an end; what it carries where nothing is.
    fn told_end(
        self,
        site: &Site,
        way: Way,
        at: usize,
        port: &PortTree,
        found: &mut Found<'_>,
    ) -> Result<Option<Option<ElemType>>, AllocError> {
        match self.end(site, way, at, port) {
            End::Port(carried) => Ok(Some(carried)),
            End::Doubtful => Ok(None),
            End::Lacking(fault) => {
                found.port(fault)?;
                Ok(None)
            }
            End::Wrong(fault) => {
                found.typing(fault)?;
                Ok(None)
            }
        }
    }

    // Wires an event connection.
    fn event(
        self,
        site: &Site,
        tree: &ConnectionTree,
        found: &mut Found<'_>,
    ) -> Result<(), AllocError> {
        let source = self.told_end(site, Way::EventSource, tree.at, &tree.source, found)?;
        let target = self.told_end(site, Way::EventTarget, tree.at, &tree.target, found)?;
        let is_own = tree.source.second.is_none() && tree.target.second.is_none();
        if is_own && source.is_some() && target.is_some() {
            return found.typing(TypeFault::BadConnection(tree.at));
        }
        Ok(())
    }

    // Gives the target of a connection its value.
    fn take(
        self,
        site: &mut Site,
        tree: &ConnectionTree,
        found: &mut Found<'_>,
    ) -> Result<(), AllocError> {
        let second = match &tree.target.second {
            Some(name) => name.text.as_str(),
            None => "",
        };
        let port = port_name(self.alloc, tree.target.first.text.as_str(), second)?;
        if site.taken.insert(port)? {
            return Ok(());
        }
        found.typing(TypeFault::TwoSources(tree.at))
    }

    // Wires a data connection.
    fn value(
        self,
        site: &mut Site,
        tree: &ConnectionTree,
        found: &mut Found<'_>,
    ) -> Result<(), AllocError> {
        let source = self.told_end(site, Way::ValueSource, tree.at, &tree.source, found)?;
        let target = self.told_end(site, Way::ValueTarget, tree.at, &tree.target, found)?;
        let is_own = tree.source.second.is_none() && tree.target.second.is_none();
        match (source, target) {
            (Some(_), Some(_)) if is_own => found.typing(TypeFault::BadConnection(tree.at)),
            (Some(Some(from)), Some(Some(into))) if !widens(from, into) => {
                found.typing(TypeFault::TypeMismatch(tree.at))
            }
            (_, Some(_)) => self.take(site, tree, found),
            _ => Ok(()),
        }
    }

    // Wires the connections of a network.
    fn connect(
        self,
        network: &NetworkTree,
        site: &mut Site,
        found: &mut Found<'_>,
    ) -> Result<(), AllocError> {
        for tree in &network.events {
            self.event(site, tree, found)?;
        }
        for tree in &network.values {
            self.value(site, tree, found)?;
        }
        Ok(())
    }

    /// Wires a network.
    pub(crate) fn wire(
        self,
        network: &NetworkTree,
        is_whole: bool,
        found: &mut Found<'_>,
    ) -> Result<(), AllocError> {
        let mut site = self.site(network, found)?;
        // Where the section of the instances was not read none is known.
        if network.instances.is_empty() && !is_whole {
            return Ok(());
        }
        self.connect(network, &mut site, found)
    }
}
