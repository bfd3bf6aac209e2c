//! What the paths of a system name in its source.

use fb_tree::{
    AlgorithmTree, BlockTree, BodyTree, ChartTree, EventTree, FileTree, InstanceTree, Name,
    NetworkTree, ResourceTree, StateTree, VariableTree,
};

/// What a path of a system names.
#[derive(Clone, Copy)]
pub enum Declared<'a> {
    Resource(&'a ResourceTree),
    Instance(&'a InstanceTree),
    State(&'a BlockTree, &'a StateTree),
    Algorithm(&'a BlockTree, &'a AlgorithmTree),
    Event(&'a EventTree),
    Variable(&'a VariableTree, &'a Name),
    /// A port of a service, or what the text does not spell: the instance that has it.
    Port(&'a InstanceTree),
}

impl Declared<'_> {
    /// The byte at which the declaration's name begins.
    pub fn at(&self) -> usize {
        match self {
            Declared::Resource(resource) => resource.name.at,
            Declared::Instance(instance) | Declared::Port(instance) => instance.name.at,
            Declared::State(_, state) => state.name.at,
            Declared::Algorithm(_, algorithm) => algorithm.name.at,
            Declared::Event(event) => event.name.at,
            Declared::Variable(_, name) => name.at,
        }
    }
}

// The resource of a device, by the names of both.
fn resource_named<'a>(file: &'a FileTree, device: &str, name: &str) -> Option<&'a ResourceTree> {
    for each in &file.system.devices {
        if each.name.text.as_str() == device {
            for resource in &each.resources {
                if resource.name.text.as_str() == name {
                    return Some(resource);
                }
            }
        }
    }
    None
}

/// An instance of a network.
pub fn instance_named<'a>(network: &'a NetworkTree, name: &str) -> Option<&'a InstanceTree> {
    for instance in &network.instances {
        if instance.name.text.as_str() == name {
            return Some(instance);
        }
    }
    None
}

/// The declaration of a block type.
pub fn block_named<'a>(file: &'a FileTree, name: &str) -> Option<&'a BlockTree> {
    for block in &file.blocks {
        if block.name.text.as_str() == name {
            return Some(block);
        }
    }
    None
}

/// A variable of one of these declarations.
pub fn variable_named<'a>(declared: &'a [VariableTree], wanted: &str) -> Option<Declared<'a>> {
    for variables in declared {
        for name in &variables.names {
            if name.text.as_str() == wanted {
                return Some(Declared::Variable(variables, name));
            }
        }
    }
    None
}

/// An event of these.
pub fn event_named<'a>(events: &'a [EventTree], wanted: &str) -> Option<Declared<'a>> {
    for event in events {
        if event.name.text.as_str() == wanted {
            return Some(Declared::Event(event));
        }
    }
    None
}

// What a name stands for in a chart.
fn chart_named<'a>(
    block: &'a BlockTree,
    chart: &'a ChartTree,
    wanted: &str,
) -> Option<Declared<'a>> {
    for state in &chart.states {
        if state.name.text.as_str() == wanted {
            return Some(Declared::State(block, state));
        }
    }
    for algorithm in &chart.algorithms {
        if algorithm.name.text.as_str() == wanted {
            return Some(Declared::Algorithm(block, algorithm));
        }
    }
    variable_named(&chart.internals, wanted)
}

// What a name stands for on a block's face.
fn face_named<'a>(block: &'a BlockTree, wanted: &str) -> Option<Declared<'a>> {
    event_named(&block.event_inputs, wanted)
        .or(event_named(&block.event_outputs, wanted))
        .or(variable_named(&block.inputs, wanted))
        .or(variable_named(&block.outputs, wanted))
}

// What a name stands for in the type of an instance; the instance where the text does not spell it.
fn inside<'a>(file: &'a FileTree, instance: &'a InstanceTree, wanted: &str) -> Declared<'a> {
    let Some(block) = block_named(file, instance.of_type.text.as_str()) else {
        return Declared::Port(instance);
    };
    let in_chart = match &block.body {
        BodyTree::Chart(chart) => chart_named(block, chart, wanted),
        BodyTree::Network(_) => None,
    };
    match in_chart.or(face_named(block, wanted)) {
        Some(found) => found,
        None => Declared::Port(instance),
    }
}

// The network of an instance, where its type is a composite.
fn network_of<'a>(file: &'a FileTree, instance: &InstanceTree) -> Option<&'a NetworkTree> {
    match &block_named(file, instance.of_type.text.as_str())?.body {
        BodyTree::Network(network) => Some(network),
        BodyTree::Chart(_) => None,
    }
}

/// What a path names: the names of a device and a resource, of instances, and perhaps of a state, an algorithm, an event or a variable, in upper case
/// and joined by dots. Nothing where the text declares no such place.
pub fn declared_at<'a>(file: &'a FileTree, path: &str) -> Option<Declared<'a>> {
    let mut names = path.split('.');
    let device = names.next()?;
    let resource = resource_named(file, device, names.next()?)?;
    let mut network = Some(&resource.network);
    let mut found = Declared::Resource(resource);
    for name in names {
        let instance = match network {
            Some(around) => instance_named(around, name),
            None => None,
        };
        found = match instance {
            Some(instance) => Declared::Instance(instance),
            None => match found {
                Declared::Instance(instance) => inside(file, instance, name),
                _ => return None,
            },
        };
        network = match instance {
            Some(instance) => network_of(file, instance),
            None => None,
        };
    }
    Some(found)
}

/// The instance that a path names, the names of a device, a resource and instances in upper case, joined by dots.
pub fn instance_at<'a>(file: &'a FileTree, path: &str) -> Option<&'a InstanceTree> {
    match declared_at(file, path)? {
        Declared::Instance(instance) => Some(instance),
        _ => None,
    }
}
