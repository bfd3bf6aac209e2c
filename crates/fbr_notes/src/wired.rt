//! Notes on networks: instances that no event reaches, event outputs that lead nowhere, values that no event is WITH, and parameters with which a service does nothing.

use crate::noted::{NoteKind, Noting, Page};
use crate::used::note_time;
use fb_tree::{
    BlockTree, BodyTree, ConnectionTree, EventTree, InstanceTree, Literal, NetworkTree, PortTree,
};
use fbr_places::{Port, Writing, port_in};
use indexmap::{IndexMap, IndexSet};
use std::alloc::{AllocError, Global};

// What the connections of a network lead to and from, by names.
#[derive(Drop)]
struct Wires<'a> {
    instances: IndexMap<String, &'a InstanceTree>,
    /// Instances to which an event is led.
    reached: IndexSet<String>,
    /// Event outputs that are led on.
    led: IndexSet<String>,
    /// Data inputs to which something is connected.
    fed: IndexSet<String>,
}

// The name of a port.
fn port_name(alloc: Global, instance: &str, port: &str) -> Result<String, AllocError> {
    let mut writing = Writing::new(alloc);
    writing.put(instance);
    writing.put(".");
    writing.put(port);
    writing.text()
}

// Notes a port of an instance.
fn add_port(
    alloc: Global,
    port: &PortTree,
    found: &mut IndexSet<String>,
) -> Result<(), AllocError> {
    if let Some(name) = &port.second {
        found.insert(port_name(alloc, port.first.text.as_str(), name.text.as_str())?)?;
    }
    Ok(())
}

impl<'a> Wires<'a> {
    // Notes where the event connections of a network lead to and from.
    fn add_events(
        &mut self,
        alloc: Global,
        connections: &[ConnectionTree],
    ) -> Result<(), AllocError> {
        for connection in connections {
            add_port(alloc, &connection.source, &mut self.led)?;
            if connection.target.second.is_some() {
                self.reached.insert(connection.target.first.text.clone()?)?;
            }
        }
        Ok(())
    }

    // Those of a network.
    fn of(alloc: Global, network: &'a NetworkTree) -> Result<Wires<'a>, AllocError> {
        let mut wires = Wires {
            instances: IndexMap::new(alloc),
            reached: IndexSet::new(alloc),
            led: IndexSet::new(alloc),
            fed: IndexSet::new(alloc),
        };
        for instance in &network.instances {
            wires
                .instances
                .insert(instance.name.text.clone()?, instance)?;
        }
        wires.add_events(alloc, &network.events)?;
        for connection in &network.values {
            add_port(alloc, &connection.target, &mut wires.fed)?;
        }
        Ok(wires)
    }
}

// Whether one of some events is WITH a variable.
fn is_carried(events: &[EventTree], name: &str) -> bool {
    for event in events {
        for carried in &event.carries {
            if carried.text.as_str() == name {
                return true;
            }
        }
    }
    false
}

// Whether nothing is missed where an event output leads nowhere: it confirms, or a standard block has it beside its work.
fn is_optional(is_given: bool, event: &str) -> bool {
    event == "INITO" || (is_given && matches!(event, "CNF" | "RO" | "CUO" | "EO"))
}

// Writes the notes on the events of an instance.
fn note_events(
    page: Page<'_>,
    wires: &Wires<'_>,
    instance: &InstanceTree,
    block: &BlockTree,
    notes: &mut Noting,
) -> Result<(), AllocError> {
    let name = instance.name.text.as_str();
    if !block.event_inputs.is_empty() && !wires.reached.contains(name) {
        notes.begin(NoteKind::InstanceNeverReached, instance.name.at);
        notes.put("no event reaches ", name, "", "");
        return Ok(());
    }
    let is_given = page.given(block.name.text.as_str()).is_some();
    for event in &block.event_outputs {
        let own = event.name.text.as_str();
        let port = port_name(page.alloc, name, own)?;
        if !is_optional(is_given, own) && !wires.led.contains(port.as_str()) {
            notes.begin(NoteKind::EventLeadsNowhere, instance.name.at);
            notes.put(name, ".", own, " leads nowhere");
        }
    }
    Ok(())
}

// What a parameter sets a data input of an instance to, in numbers: 0 where none does. Nothing where something is connected to it.
fn parameter_of(
    page: Page<'_>,
    wires: &Wires<'_>,
    instance: &InstanceTree,
    input: &str,
) -> Result<Option<u64>, AllocError> {
    let port = port_name(page.alloc, instance.name.text.as_str(), input)?;
    if wires.fed.contains(port.as_str()) {
        return Ok(None);
    }
    for parameter in &instance.parameters {
        if parameter.name.text.as_str() == input {
            return Ok(Some(match parameter.value.value {
                Literal::Truth(true) => 1,
                Literal::Truth(false) => 0,
                Literal::Whole(_, size) => size,
                Literal::Typed(_, _, size) => size,
                Literal::Duration(_, size) => size,
            }));
        }
    }
    Ok(Some(0))
}

// A turn may take so many milliseconds.
const TURN: u64 = 5;

// Writes that the period of an E_CYCLE is short.
fn note_period(instance: &InstanceTree, period: u64, notes: &mut Noting) {
    notes.begin(NoteKind::PeriodTooShort, instance.name.at);
    notes.said().put("the period of ");
    notes.said().put(instance.name.text.as_str());
    if period == 0 {
        notes.put(" is 0: it needs a step at each turn", "", "", "");
        return;
    }
    notes.said().put(" is ");
    notes.said().show(&period);
    notes.put(" ms: a turn may take longer", "", "", "");
}

// Writes that a service that is there beforehand does nothing with its parameters, where that is so.
fn note_parameters(
    page: Page<'_>,
    wires: &Wires<'_>,
    instance: &InstanceTree,
    notes: &mut Noting,
) -> Result<(), AllocError> {
    let of_type = instance.of_type.text.as_str();
    if page.given(of_type).is_none() {
        return Ok(());
    }
    if matches!(of_type, "PUBLISH" | "SUBSCRIBE") {
        if let Some(0) = parameter_of(page, wires, instance, "QI")? {
            notes.begin(NoteKind::QiStaysFalse, instance.name.at);
            let name = instance.name.text.as_str();
            notes.put("QI of ", name, " stays FALSE: INIT never opens it", "");
        }
    }
    if of_type == "E_CYCLE" {
        match parameter_of(page, wires, instance, "DT")? {
            Some(period) if period < TURN => note_period(instance, period, notes),
            _ => {}
        }
    }
    Ok(())
}

// Writes that no event is WITH an end of a data connection, where it is a port of a basic block type of the text and that is so.
fn note_end(
    page: Page<'_>,
    wires: &Wires<'_>,
    end: &PortTree,
    is_target: bool,
    notes: &mut Noting,
) {
    let (Some(instance), Some(port)) = (
        wires.instances.get(end.first.text.as_str()).copied(),
        &end.second,
    ) else {
        return;
    };
    let Some(block) = page.own(instance.of_type.text.as_str()) else {
        return;
    };
    let is_basic = matches!(&block.body, BodyTree::Chart(_));
    let (events, kind, says) = if is_target {
        (
            &block.event_inputs,
            NoteKind::ValueNeverTaken,
            ": this value is never taken",
        )
    } else {
        (
            &block.event_outputs,
            NoteKind::ValueNeverGiven,
            ": this value is never given",
        )
    };
    if is_basic && !is_carried(events, port.text.as_str()) {
        notes.begin(kind, port.at);
        notes.said().put("no event of ");
        notes.said().put(block.name.text.as_str());
        notes.put(" is WITH ", port.text.as_str(), says, "");
    }
}

// Writes the notes on an instance.
fn note_instance(
    page: Page<'_>,
    wires: &Wires<'_>,
    instance: &InstanceTree,
    notes: &mut Noting,
) -> Result<(), AllocError> {
    let of_type = instance.of_type.text.as_str();
    let Some(block) = page.own(of_type).or(page.given(of_type)) else {
        return Ok(());
    };
    for parameter in &instance.parameters {
        let name = parameter.name.text.as_str();
        let port = match port_in(block, name) {
            Some(port) => Some(port),
            None => page.types.port(instance, name),
        };
        if let Some(Port::Input(of_type)) = port {
            note_time(page, of_type, &parameter.value, notes);
        }
    }
    note_events(page, wires, instance, block, notes)?;
    note_parameters(page, wires, instance, notes)
}

/// Writes the notes on a network.
pub fn note_network(
    page: Page<'_>,
    network: &NetworkTree,
    notes: &mut Noting,
) -> Result<(), AllocError> {
    let wires = Wires::of(page.alloc, network)?;
    for instance in &network.instances {
        note_instance(page, &wires, instance, notes)?;
    }
    for connection in &network.values {
        note_end(page, &wires, &connection.source, false, notes);
        note_end(page, &wires, &connection.target, true, notes);
    }
    Ok(())
}
