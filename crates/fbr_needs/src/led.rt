//! Where a text says how a place leads to the next one of a walk.

use crate::walk::Way;
use fb_faults::Place;
use fb_tree::{
    BodyTree, ChartTree, ConnectionTree, FileTree, InstanceTree, NetworkTree, TransitionTree,
};
use fbr_places::{Declared, declared_at};

// The network of an instance, if its type is a composite.
fn network_of<'a>(file: &'a FileTree, instance: &InstanceTree) -> Option<&'a NetworkTree> {
    for block in &file.blocks {
        if block.name.text.as_str() == instance.of_type.text.as_str() {
            return match &block.body {
                BodyTree::Network(network) => Some(network),
                BodyTree::Chart(_) => None,
            };
        }
    }
    None
}

// The network of the resource or the composite of a path.
fn network_at<'a>(file: &'a FileTree, path: &str) -> Option<&'a NetworkTree> {
    match declared_at(file, path)? {
        Declared::Resource(resource) => Some(&resource.network),
        Declared::Instance(instance) => network_of(file, instance),
        _ => None,
    }
}

// Whether a connection leads from this event output of an instance.
fn comes_from(connection: &ConnectionTree, instance: &str, output: &str) -> bool {
    match &connection.source.second {
        Some(port) => {
            connection.source.first.text.as_str() == instance && port.text.as_str() == output
        }
        None => false,
    }
}

// The rest of a path below another one.
fn below<'a>(path: &'a str, front: &str) -> Option<&'a str> {
    path.strip_prefix(front)?.strip_prefix(".")
}

// Whether a connection in the network of a path leads to an event, or into the composite that has it.
fn goes_to(connection: &ConnectionTree, around: &str, event: &str) -> bool {
    let Some(port) = &connection.target.second else {
        return false;
    };
    let Some(inside) = below(event, around) else {
        return false;
    };
    match inside.split_once('.') {
        Some((instance, rest)) => {
            instance == connection.target.first.text.as_str()
                && (rest == port.text.as_str() || rest.contains('.'))
        }
        None => false,
    }
}

// Where the connection begins by which an event output of a leaf leads to an event.
fn connection_from(file: &FileTree, leaf: &str, output: &str, event: &str) -> Option<usize> {
    let (around, instance) = leaf.rsplit_once('.')?;
    let mut first = None;
    for connection in &network_at(file, around)?.events {
        if comes_from(connection, instance, output) {
            if goes_to(connection, around, event) {
                return Some(connection.source.first.at);
            }
            if first.is_none() {
                first = Some(connection.source.first.at);
            }
        }
    }
    first
}

// The chart that has the state of a path.
fn chart_at<'a>(file: &'a FileTree, path: &str) -> Option<&'a ChartTree> {
    match declared_at(file, path)? {
        Declared::State(block, _) => match &block.body {
            BodyTree::Chart(chart) => Some(chart),
            BodyTree::Network(_) => None,
        },
        _ => None,
    }
}

// Whether a transition names this event, or none where there is none.
fn is_by(transition: &TransitionTree, event: Option<&str>) -> bool {
    match (&transition.event, event) {
        (Some(named), Some(event)) => named.text.as_str() == event,
        (None, None) => true,
        _ => false,
    }
}

// Where the first transition begins that leads to a state by this event, from another one where that is named.
fn transition_to(
    chart: &ChartTree,
    from: Option<&str>,
    event: Option<&str>,
    state: &str,
) -> Option<usize> {
    for transition in &chart.transitions {
        let is_from = match from {
            Some(name) => transition.source.text.as_str() == name,
            None => true,
        };
        if is_from && is_by(transition, event) && transition.target.text.as_str() == state {
            return Some(transition.source.at);
        }
    }
    None
}

// The path of a place, if it is none of a channel.
fn path_of(place: &Place) -> Option<&str> {
    match place {
        Place::State(path) | Place::Event(path) => Some(path.as_str()),
        Place::Channel(_) => None,
    }
}

/// The byte at which the text says how a place leads to the next: where a connection or a transition begins, or the PUBLISH or SUBSCRIBE is declared. Nothing where
/// the text does not spell it, as with the charts of the library.
pub fn led_at(file: &FileTree, from: &Place, to: &Place, way: Way<'_>) -> Option<usize> {
    match way {
        Way::Emits(output, event) => {
            let (leaf, _) = path_of(from)?.rsplit_once('.')?;
            connection_from(file, leaf, output, event)
        }
        Way::Free(state) => {
            let (_, name) = path_of(from)?.rsplit_once('.')?;
            transition_to(chart_at(file, path_of(to)?)?, Some(name), None, state)
        }
        Way::Opens(state) => {
            let (_, event) = path_of(from)?.rsplit_once('.')?;
            let chart = chart_at(file, path_of(to)?)?;
            transition_to(chart, None, Some(event), state).or(transition_to(
                chart, None, None, state,
            ))
        }
        Way::Arrives(event) => Some(declared_at(file, event)?.at()),
        Way::Sends(_) => Some(declared_at(file, path_of(from)?)?.at()),
    }
}
