//! Ends of connections: what each is, and where another source stands.

use fb_tree::{BlockTree, NetworkTree, ParameterTree, PortTree};
use fbr_advice::advice::Advice;
use fbr_places::{
    Named, Port, Types, Writing, block_around, connection_at, instance_around, instance_named,
    network_around, port_in, tell_where,
};

/// What an end of a connection is, in a network that may be that of a composite.
pub fn port_of(
    types: Types<'_>,
    network: &NetworkTree,
    block: Option<&BlockTree>,
    end: &PortTree,
) -> Option<Port> {
    match &end.second {
        Some(name) => {
            let instance = instance_named(network, end.first.text.as_str())?;
            types.port(instance, name.text.as_str())
        }
        None => port_in(block?, end.first.text.as_str()),
    }
}

/// Writes an end.
pub fn put_end(end: &PortTree, writing: &mut Writing) {
    writing.put(end.first.text.as_str());
    if let Some(name) = &end.second {
        writing.put(".");
        writing.put(name.text.as_str());
    }
}

// What a port is called.
fn said(port: Option<Port>) -> &'static str {
    match port {
        Some(Port::EventInput) => " is an event input",
        Some(Port::EventOutput) => " is an event output",
        Some(Port::Input(_)) => " is a data input",
        Some(Port::Output(_)) => " is a data output",
        None => " is no port",
    }
}

/// Writes what the ends are of the connection whose TO is a byte.
pub fn tell_ends(types: Types<'_>, at: usize, advice: &mut Advice) {
    let block = block_around(types.file, at);
    let Some(network) = network_around(types.file, at) else {
        return;
    };
    let Some((connection, is_event)) = connection_at(network, at) else {
        return;
    };
    let (source, target) = (&connection.source, &connection.target);
    let is_own = source.second.is_none() || target.second.is_none();
    if source.second.is_none() && target.second.is_none() {
        advice.put("both ends are ports of the composite itself: lead them through an instance");
        return;
    }
    let writing = &mut advice.said;
    put_end(source, writing);
    writing.put(said(port_of(types, network, block, source)));
    writing.put(", and ");
    put_end(target, writing);
    writing.put(said(port_of(types, network, block, target)));
    let rule = if is_event {
        "connect an event output to an event input"
    } else {
        "connect a data output to a data input"
    };
    let within = if is_own {
        "; within a composite its own inputs lead in, and its own outputs are led to"
    } else {
        ""
    };
    advice.end(rule, within);
}

// Where the parameter stands that gives an end of a connection its value, or else the first connection that does.
fn source_of(network: &NetworkTree, target: &PortTree) -> Option<usize> {
    let first = target.first.text.as_str();
    if let (Some(port), Some(instance)) = (&target.second, instance_named(network, first)) {
        for parameter in &instance.parameters {
            if parameter.name.text.as_str() == port.text.as_str() {
                return Some(parameter.at);
            }
        }
    }
    for connection in &network.values {
        let other = &connection.target;
        let is_port = match (&other.second, &target.second) {
            (Some(name), Some(wanted)) => name.text.as_str() == wanted.text.as_str(),
            (None, None) => true,
            _ => false,
        };
        if is_port && other.first.text.as_str() == first {
            return Some(connection.at);
        }
    }
    None
}

// The parameter before the one whose `:=` is a byte that has the same name.
fn parameter_of(network: &NetworkTree, at: usize) -> Option<&ParameterTree> {
    let instance = instance_around(network, at)?;
    for parameter in &instance.parameters {
        for again in &instance.parameters {
            if again.at == at && again.name.text.as_str() == parameter.name.text.as_str() {
                return Some(parameter);
            }
        }
    }
    None
}

/// Writes where the value stands that is given again at a byte.
pub fn tell_second(types: Types<'_>, app: Named<'_>, at: usize, advice: &mut Advice) {
    let writing = &mut advice.said;
    let Some(network) = network_around(types.file, at) else {
        return;
    };
    let other = match (connection_at(network, at), parameter_of(network, at)) {
        (Some((connection, _)), _) => {
            put_end(&connection.target, writing);
            source_of(network, &connection.target)
        }
        (None, Some(parameter)) => {
            writing.put(parameter.name.text.as_str());
            Some(parameter.at)
        }
        _ => return,
    };
    writing.put(" has its value by ");
    tell_where(app, other.unwrap_or(at), writing);
    writing.put(" already\n");
}
