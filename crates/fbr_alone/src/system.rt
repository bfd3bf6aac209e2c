//! The text of the system around a block type.

use crate::arguments::{EventInput, holder_of};
use crate::around::HOME;
use fb_tree::{BlockTree, EventTree};
use fb_words::ElemType;
use fbr_places::{Writing, type_named};

/// A block type, the name of its one instance, and its event inputs.
#[derive(Clone, Copy)]
pub(crate) struct Subject<'a> {
    pub(crate) block: &'a BlockTree,
    pub(crate) instance: &'a str,
    pub(crate) events: &'a [EventInput],
}

// Writes these parts, one after another.
fn put_all(parts: &[&str], writing: &mut Writing) {
    for part in parts {
        writing.put(*part);
    }
}

// Writes a type among those in square brackets, and the bracket before the first.
fn put_type(is_first: bool, of_type: ElemType, writing: &mut Writing) {
    writing.put(if is_first { "[" } else { ", " });
    writing.put(of_type.name());
}

// Writes the parameter of a service, and the bracket of its types where it has any.
fn put_number(has_types: bool, number: u16, writing: &mut Writing) {
    if has_types {
        writing.put("]");
    }
    writing.put("(ID := ");
    writing.show(&number);
    writing.put(");\n");
}

// Writes the INPUT of an event input, which carries what has no holder.
fn put_input(event: &EventInput, writing: &mut Writing) {
    writing.put(event.name.as_str());
    writing.put(" : INPUT");
    let mut is_first = true;
    for argument in &event.arguments {
        if argument.holder.is_none() {
            put_type(is_first, argument.of_type, writing);
            is_first = false;
        }
    }
    put_number(!is_first, event.input, writing);
}

// Writes the OUTPUT of a number, which shows what an event output carries.
fn put_output(block: &BlockTree, index: usize, event: &EventTree, writing: &mut Writing) {
    writing.put(event.name.text.as_str());
    writing.put(" : OUTPUT");
    let mut is_first = true;
    for carried in &event.carries {
        if let Some(of_type) = type_named(&block.outputs, carried.text.as_str()) {
            put_type(is_first, of_type, writing);
            is_first = false;
        }
    }
    put_number(!is_first, u16::try_from(index).unwrap_or(u16::MAX), writing);
}

// Writes the connection of an event or of data between two ports.
fn put_connection(from: (&str, &str), into: (&str, &str), writing: &mut Writing) {
    put_all(&[from.0, ".", from.1, " TO "], writing);
    put_all(&[into.0, ".", into.1, ";\n"], writing);
}

impl Subject<'_> {
    // Whether a data input has a holder.
    fn is_held(self, name: &str) -> bool {
        let number = holder_of(self.block, name);
        for event in self.events {
            for argument in &event.arguments {
                if argument.holder == Some(number) {
                    return true;
                }
            }
        }
        false
    }

    // Writes the INPUTs that hold data inputs.
    fn put_holders(self, writing: &mut Writing) {
        for variables in &self.block.inputs {
            for name in &variables.names {
                if self.is_held(name.text.as_str()) {
                    writing.put(name.text.as_str());
                    writing.put(" : INPUT");
                    put_type(true, variables.of_type, writing);
                    put_number(true, holder_of(self.block, name.text.as_str()), writing);
                }
            }
        }
    }

    // Writes all instances.
    fn put_instances(self, writing: &mut Writing) {
        writing.put(self.instance);
        writing.put(" : ");
        writing.put(self.block.name.text.as_str());
        writing.put(";\n");
        for event in self.events {
            put_input(event, writing);
        }
        self.put_holders(writing);
        for (index, event) in self.block.event_outputs.iter().enumerate() {
            put_output(self.block, index, event, writing);
        }
    }

    // Writes the connections of events.
    fn put_events(self, writing: &mut Writing) {
        for event in self.events {
            let name = event.name.as_str();
            put_connection((name, "IND"), (self.instance, name), writing);
        }
        for event in &self.block.event_outputs {
            let name = event.name.text.as_str();
            put_connection((self.instance, name), (name, "REQ"), writing);
        }
    }

    // Writes the connections of the data that an event input carries.
    fn put_carried(self, event: &EventInput, writing: &mut Writing) {
        let mut count: usize = 0;
        for argument in &event.arguments {
            if argument.holder.is_none() {
                count = count.saturating_add(1);
                put_all(&[event.name.as_str(), ".RD_"], writing);
                writing.show(&count);
                put_all(&[" TO ", self.instance, "."], writing);
                put_all(&[argument.name.as_str(), ";\n"], writing);
            }
        }
    }

    // Writes the connections of the data that an event output carries.
    fn put_shown(self, event: &EventTree, writing: &mut Writing) {
        let mut count: usize = 0;
        for carried in &event.carries {
            count = count.saturating_add(1);
            put_all(&[self.instance, ".", carried.text.as_str()], writing);
            put_all(&[" TO ", event.name.text.as_str(), ".SD_"], writing);
            writing.show(&count);
            writing.put(";\n");
        }
    }

    // Writes the connections of data.
    fn put_data(self, writing: &mut Writing) {
        for event in self.events {
            self.put_carried(event, writing);
        }
        for variables in &self.block.inputs {
            for name in &variables.names {
                let name = name.text.as_str();
                if self.is_held(name) {
                    put_connection((name, "RD_1"), (self.instance, name), writing);
                }
            }
        }
        for event in &self.block.event_outputs {
            self.put_shown(event, writing);
        }
    }

    /// Writes the system: one device of one resource, with the type's instance between its INPUTs and its OUTPUTs.
    pub(crate) fn put(self, writing: &mut Writing) {
        put_all(&["SYSTEM ", HOME, "\nDEVICE ", HOME], writing);
        put_all(&["\nRESOURCE ", HOME, "\nFBS\n"], writing);
        self.put_instances(writing);
        writing.put("END_FBS\nEVENT_CONNECTIONS\n");
        self.put_events(writing);
        writing.put("END_CONNECTIONS\nDATA_CONNECTIONS\n");
        self.put_data(writing);
        writing.put("END_CONNECTIONS\nEND_RESOURCE\nEND_DEVICE\nEND_SYSTEM\n");
    }
}
