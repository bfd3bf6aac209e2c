//! Whether whole texts are well typed, and what their leaves are.

use crate::case::Case;
use crate::text::{refused, text_of, written};
use fb_flat::{Body, Flat, Input, Leaf, Source, flatten};
use fb_text::parse;
use fb_types::Typed;
use fb_types_events::resolve;
use fb_types_services::{Channel, Service};
use fb_words::{ElemType, Format};
use fbr_places::Writing;
use std::alloc::{AllocError, Global};
use std::convert::AsStr;

/// `typed`, or the refusal.
pub fn systems(alloc: Global, case: &Case<'_>) -> Result<String, AllocError> {
    match typed(alloc, case)? {
        Ok(typed) => {
            typed.let_go();
            String::from_str(alloc, "typed")
        }
        Err(refusal) => Ok(refusal),
    }
}

/// The typed system of a case, or the refusal.
pub fn typed(alloc: Global, case: &Case<'_>) -> Result<Result<Typed, String>, AllocError> {
    let text = text_of(alloc, case)?;
    match parse(alloc, text.as_str()) {
        Ok(source) => {
            let typed = resolve(alloc, &source);
            source.let_go();
            match typed {
                Ok(typed) => Ok(Ok(typed)),
                Err(fault) => Ok(Err(refused(alloc, &fault)?)),
            }
        }
        Err(fault) => Ok(Err(refused(alloc, &fault)?)),
    }
}

/// The leaves of a case, or the refusal.
pub fn flat(alloc: Global, case: &Case<'_>) -> Result<Result<Flat, String>, AllocError> {
    match typed(alloc, case)? {
        Ok(typed) => {
            let flat = flatten(alloc, &typed);
            typed.let_go();
            match flat {
                Ok(flat) => Ok(Ok(flat)),
                Err(fault) => Ok(Err(refused(alloc, &fault)?)),
            }
        }
        Err(refusal) => Ok(Err(refusal)),
    }
}

// Where the value of a data input comes from.
fn taken(out: &mut Writing, input: &Input) {
    out.put(" ");
    out.put(input.name.as_str());
    match &input.source {
        Source::Output(path, name) => {
            out.put(" < ");
            out.put(path.as_str());
            out.put(".");
            out.put(name.as_str())
        }
        Source::Number(number) => {
            out.put(" = ");
            out.show(number)
        }
        Source::Zeros(low, high) => {
            out.put(" = 0 at ");
            out.show(low);
            out.put("..");
            out.show(high)
        }
    }
}

// The event outputs of a leaf with what they lead to, and its data inputs with what they come from.
fn wires(out: &mut Writing, leaf: &Leaf) {
    out.put(leaf.path.as_str());
    for output in &leaf.outputs {
        out.put(" ");
        out.put(output.name.as_str());
        for target in &output.targets {
            out.put(" > ");
            out.put(target.path.as_str());
            out.put(".");
            out.put(target.event.as_str());
        }
    }
    for input in &leaf.inputs {
        taken(out, input);
    }
    out.put("\n");
}

// The wires of all leaves.
fn leaves_of(alloc: Global, flat: &Flat) -> Result<String, AllocError> {
    let mut out = Writing::new(alloc);
    for device in &flat.devices {
        for resource in &device.resources {
            out.put("resource ");
            out.put(resource.path.as_str());
            out.put("\n");
            for leaf in &resource.leaves {
                wires(&mut out, leaf);
            }
        }
    }
    written(alloc, out)
}

/// The leaves of each resource with their wires.
pub fn leaves(alloc: Global, case: &Case<'_>) -> Result<String, AllocError> {
    match flat(alloc, case)? {
        Ok(flat) => {
            let answer = leaves_of(alloc, &flat);
            flat.let_go();
            answer
        }
        Err(refusal) => Ok(refusal),
    }
}

// Names in a line behind a word.
fn listed<T: AsStr>(out: &mut Writing, word: &str, names: &[T]) {
    out.put("  ");
    out.put(word);
    for name in names {
        out.put(" ");
        out.put(name.as_str());
    }
    out.put("\n");
}

// A format, where it is not the first.
fn format_of(channel: &Channel) -> &'static str {
    match channel.format {
        Format::First => "",
        Format::Second => " FORMAT 2",
    }
}

// The word of a service with its number, its format and the types of its values.
fn headed(out: &mut Writing, word: &str, number: u16, format: &str, types: &[ElemType]) {
    out.put(word);
    out.put(" ");
    out.show(&number);
    out.put(format);
    for of in types {
        out.put(" ");
        out.put(of.name());
    }
    out.put("\n");
}

// What a service is.
fn head(out: &mut Writing, service: &Service) {
    match service {
        Service::Input(number, types) => headed(out, "INPUT", *number, "", types),
        Service::Output(number, types) => headed(out, "OUTPUT", *number, "", types),
        Service::Publish(channel, types) => {
            headed(out, "PUBLISH", channel.number, format_of(channel), types)
        }
        Service::Subscribe(channel, types) => {
            headed(out, "SUBSCRIBE", channel.number, format_of(channel), types)
        }
        Service::Delay => out.put("E_DELAY\n"),
        Service::Cycle => out.put("E_CYCLE\n"),
        Service::Restart => out.put("E_RESTART\n"),
    }
}

// A service with its ports, and what each of its event inputs and its arrival can emit.
fn ports(alloc: Global, out: &mut Writing, service: &Service) -> Result<(), AllocError> {
    head(out, service);
    listed(out, "event outputs", service.event_outputs());
    for event in service.event_inputs() {
        listed(out, *event, service.emitted(*event));
    }
    if let Some(arrival) = service.arrival() {
        listed(out, arrival, service.emitted(arrival));
    }
    listed(out, "inputs", service.inputs(alloc)?.as_slice());
    listed(out, "outputs", service.outputs(alloc)?.as_slice());
    Ok(())
}

// What all leaves are.
fn services_of(alloc: Global, flat: &Flat) -> Result<String, AllocError> {
    let mut out = Writing::new(alloc);
    for device in &flat.devices {
        for resource in &device.resources {
            for leaf in &resource.leaves {
                out.put(leaf.path.as_str());
                out.put(" ");
                match &leaf.body {
                    Body::Basic(_) => out.put("block\n"),
                    Body::Served(service) => ports(alloc, &mut out, service)?,
                }
            }
        }
    }
    written(alloc, out)
}

/// What each leaf is: a block, or a service with its ports.
pub fn services(alloc: Global, case: &Case<'_>) -> Result<String, AllocError> {
    match flat(alloc, case)? {
        Ok(flat) => {
            let answer = services_of(alloc, &flat);
            flat.let_go();
            answer
        }
        Err(refusal) => Ok(refusal),
    }
}
