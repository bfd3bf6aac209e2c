//! Declarations as short text, a line each.

use crate::trees::{constant, expression, name, spot, statements};
use fb_tree::{
    ActionTree, BlockTree, BodyTree, ChartTree, ConnectionTree, EventTree, FileTree, InstanceTree,
    Name, NetworkTree, PortTree, TransitionTree, VariableTree,
};
use fbr_places::Writing;

// Names, each behind a space.
fn names(out: &mut Writing, list: &[Name]) {
    for item in list {
        out.put(" ");
        name(out, item);
    }
}

// A name where there is one, else a dot.
fn optional(out: &mut Writing, item: &Option<Name>) {
    match item {
        Some(item) => name(out, item),
        None => out.put("."),
    }
}

fn events(out: &mut Writing, word: &str, list: &[EventTree]) {
    for event in list {
        out.put(word);
        out.put(" ");
        name(out, &event.name);
        if !event.carries.is_empty() {
            out.put(" WITH");
            names(out, &event.carries);
        }
        out.put("\n");
    }
}

fn variables(out: &mut Writing, word: &str, list: &[VariableTree]) {
    for variable in list {
        out.put(word);
        names(out, &variable.names);
        out.put(" : ");
        if let Some(bounds) = variable.bounds {
            out.put("[");
            constant(out, bounds.low);
            out.put("..");
            constant(out, bounds.high);
            out.put("] ");
        }
        out.put(variable.of_type.name());
        if let Some(start) = variable.start {
            spot(out, " :=", start.at);
            constant(out, start.value);
        }
        out.put("\n");
    }
}

// An action: its algorithm and its event output.
fn actions(out: &mut Writing, list: &[ActionTree]) {
    for action in list {
        out.put(" ");
        optional(out, &action.algorithm);
        out.put("->");
        optional(out, &action.output);
    }
}

fn transition(out: &mut Writing, transition: &TransitionTree) {
    out.put("TRANSITION ");
    name(out, &transition.source);
    out.put(" TO ");
    name(out, &transition.target);
    out.put(" := ");
    optional(out, &transition.event);
    if let Some(guard) = &transition.guard {
        spot(out, " [", guard.at);
        expression(out, &guard.condition);
        out.put("]");
    }
    out.put("\n");
}

fn chart(out: &mut Writing, chart: &ChartTree) {
    variables(out, "VAR", &chart.internals);
    for state in &chart.states {
        out.put("STATE ");
        name(out, &state.name);
        actions(out, &state.actions);
        out.put("\n");
    }
    for item in &chart.transitions {
        transition(out, item);
    }
    for algorithm in &chart.algorithms {
        out.put("ALGORITHM ");
        name(out, &algorithm.name);
        out.put(" ");
        statements(out, &algorithm.body);
        out.put("\n");
    }
}

fn instance(out: &mut Writing, instance: &InstanceTree) {
    out.put("INSTANCE ");
    name(out, &instance.name);
    out.put(" : ");
    name(out, &instance.of_type);
    if let Some(types) = &instance.types {
        out.put(" [");
        for of in types {
            out.put(" ");
            out.put(of.name());
        }
        out.put(" ]");
    }
    for parameter in &instance.parameters {
        out.put(" ");
        name(out, &parameter.name);
        spot(out, " :=", parameter.at);
        constant(out, parameter.value);
    }
    out.put("\n");
}

fn port(out: &mut Writing, port: &PortTree) {
    name(out, &port.first);
    if let Some(second) = &port.second {
        out.put(".");
        name(out, second);
    }
}

fn connections(out: &mut Writing, word: &str, list: &[ConnectionTree]) {
    for connection in list {
        out.put(word);
        out.put(" ");
        port(out, &connection.source);
        spot(out, " TO", connection.at);
        port(out, &connection.target);
        out.put("\n");
    }
}

fn network(out: &mut Writing, network: &NetworkTree) {
    for item in &network.instances {
        instance(out, item);
    }
    connections(out, "EVENT", &network.events);
    connections(out, "DATA", &network.values);
}

fn block(out: &mut Writing, block: &BlockTree) {
    out.put("FUNCTION_BLOCK ");
    name(out, &block.name);
    out.put("\n");
    events(out, "EVENT_INPUT", &block.event_inputs);
    events(out, "EVENT_OUTPUT", &block.event_outputs);
    variables(out, "VAR_INPUT", &block.inputs);
    variables(out, "VAR_OUTPUT", &block.outputs);
    match &block.body {
        BodyTree::Chart(body) => chart(out, body),
        BodyTree::Network(body) => network(out, body),
    }
}

/// A whole text.
pub fn source(out: &mut Writing, source: &FileTree) {
    for item in &source.blocks {
        block(out, item);
    }
    out.put("SYSTEM ");
    name(out, &source.system.name);
    out.put("\n");
    for device in &source.system.devices {
        out.put("DEVICE ");
        name(out, &device.name);
        out.put("\n");
        for resource in &device.resources {
            out.put("RESOURCE ");
            name(out, &resource.name);
            out.put("\n");
            network(out, &resource.network);
        }
    }
}
