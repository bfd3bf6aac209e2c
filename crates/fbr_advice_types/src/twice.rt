//! Names that are declared twice: where the first is.

use fb_tree::{
    BlockTree, BodyTree, ChartTree, EventTree, FileTree, Name, NetworkTree, VariableTree,
};
use fbr_advice::advice::Advice;
use fbr_places::{Named, Types, block_around, device_around, network_around, tell_where};

/// Where a name stands that is declared again at a byte: the first of its text among names, of which one is at that byte.
#[derive(Clone, Copy)]
struct Search<'a> {
    text: &'a str,
    at: usize,
    first: Option<usize>,
    is_found: bool,
}

impl<'a> Search<'a> {
    // Looks at a name.
    fn look(&mut self, name: &Name) {
        if name.at == self.at {
            self.is_found = true;
        } else if self.first.is_none() && name.text.as_str() == self.text {
            self.first = Some(name.at);
        }
    }

    // Looks at the names of events.
    fn events(&mut self, events: &[EventTree]) {
        for event in events {
            self.look(&event.name);
        }
    }

    // Looks at the names of variables.
    fn variables(&mut self, declared: &[VariableTree]) {
        for variables in declared {
            for name in &variables.names {
                self.look(name);
            }
        }
    }

    // Looks at the ports of a block type.
    fn face(&mut self, block: &BlockTree) {
        self.events(&block.event_inputs);
        self.events(&block.event_outputs);
        self.variables(&block.inputs);
        self.variables(&block.outputs);
    }

    // Where the first one is, if one is at the byte.
    fn end(self) -> Option<usize> {
        if self.is_found { self.first } else { None }
    }
}

// Begins a search for a name.
fn search_for<'a>(text: &'a str, at: usize) -> Search<'a> {
    Search {
        text,
        at,
        first: None,
        is_found: false,
    }
}

// The first state of a name, or the first algorithm.
fn first_in_chart(chart: &ChartTree, text: &str, at: usize) -> Option<usize> {
    let mut states = search_for(text, at);
    for state in &chart.states {
        states.look(&state.name);
    }
    let mut algorithms = search_for(text, at);
    for algorithm in &chart.algorithms {
        algorithms.look(&algorithm.name);
    }
    states.end().or(algorithms.end())
}

// The first name of a block type.
fn first_in_block(block: &BlockTree, text: &str, at: usize) -> Option<usize> {
    let mut names = search_for(text, at);
    names.face(block);
    match &block.body {
        BodyTree::Chart(chart) => {
            names.variables(&chart.internals);
            names.end().or(first_in_chart(chart, text, at))
        }
        BodyTree::Network(network) => {
            for instance in &network.instances {
                names.look(&instance.name);
            }
            names.end()
        }
    }
}

// The first instance of a network.
fn first_instance(network: &NetworkTree, text: &str, at: usize) -> Option<usize> {
    let mut names = search_for(text, at);
    for instance in &network.instances {
        names.look(&instance.name);
    }
    names.end()
}

// The first device, or the first resource of a device.
fn first_in_system(file: &FileTree, text: &str, at: usize) -> Option<usize> {
    let mut devices = search_for(text, at);
    for device in &file.system.devices {
        devices.look(&device.name);
    }
    let mut resources = search_for(text, at);
    if let Some(device) = device_around(file, at) {
        for resource in &device.resources {
            resources.look(&resource.name);
        }
    }
    devices.end().or(resources.end())
}

// The first type of a name.
fn first_type(file: &FileTree, text: &str, at: usize) -> Option<usize> {
    let mut types = search_for(text, at);
    for block in &file.blocks {
        types.look(&block.name);
    }
    types.end()
}

// Where the name that is declared again at a byte is declared first.
fn first_of(file: &FileTree, text: &str, at: usize) -> Option<usize> {
    let first = first_type(file, text, at).or(first_in_system(file, text, at));
    if first.is_some() {
        return first;
    }
    match (block_around(file, at), network_around(file, at)) {
        (Some(block), _) => first_in_block(block, text, at),
        (None, Some(network)) => first_instance(network, text, at),
        (None, None) => None,
    }
}

/// Writes where a name is declared first that is declared again at a byte.
pub fn tell_twice(types: Types<'_>, app: Named<'_>, name: &str, at: usize, advice: &mut Advice) {
    match first_of(types.file, name, at) {
        Some(first) => {
            advice.said.put(name);
            advice.said.put(" is already declared at ");
            tell_where(app, first, &mut advice.said);
            advice.end("give one of them another name", "");
        }
        None => {
            if types.block(name).is_some() {
                advice.said.put(name);
                advice.said.put(" is the name of a service");
                advice.end("give this type another name", "");
            }
        }
    }
}
