//! Ports of block types and of services, as texts declare them.

use crate::declared::{Declared, block_named, event_named, variable_named};
use fb_tree::{BlockTree, FileTree, InstanceTree, VariableTree};
use fb_words::ElemType;

/// What a port is, and the type of the values that it carries.
#[derive(Clone, Copy)]
pub enum Port {
    EventInput,
    EventOutput,
    Input(ElemType),
    Output(ElemType),
}

/// A text's tree, and that of the types that are there beforehand.
#[derive(Clone, Copy)]
pub struct Types<'a> {
    pub file: &'a FileTree,
    pub library: &'a FileTree,
}

/// The type of a variable of one of these declarations.
pub fn type_named(declared: &[VariableTree], wanted: &str) -> Option<ElemType> {
    match variable_named(declared, wanted)? {
        Declared::Variable(variables, _) => Some(variables.of_type),
        _ => None,
    }
}

/// What a port on the face of a block type is.
pub fn port_in(block: &BlockTree, name: &str) -> Option<Port> {
    if event_named(&block.event_inputs, name).is_some() {
        return Some(Port::EventInput);
    }
    if event_named(&block.event_outputs, name).is_some() {
        return Some(Port::EventOutput);
    }
    if let Some(of_type) = type_named(&block.inputs, name) {
        return Some(Port::Input(of_type));
    }
    Some(Port::Output(type_named(&block.outputs, name)?))
}

// What a port is that carries a value of the types in an instance's square brackets.
fn numbered(instance: &InstanceTree, name: &str) -> Option<Port> {
    let Some(types) = &instance.types else {
        return None;
    };
    let (is_input, digits) = match name.strip_prefix("SD_") {
        Some(digits) => (true, digits),
        None => (false, name.strip_prefix("RD_")?),
    };
    let number = digits.parse::<usize>().ok()?;
    let of_type = *types.get(number.checked_sub(1)?)?;
    if is_input {
        Some(Port::Input(of_type))
    } else {
        Some(Port::Output(of_type))
    }
}

impl<'a> Types<'a> {
    /// The declaration of a block type.
    pub fn block(self, name: &str) -> Option<&'a BlockTree> {
        block_named(self.file, name).or(block_named(self.library, name))
    }

    /// What a port of an instance is.
    pub fn port(self, instance: &InstanceTree, name: &str) -> Option<Port> {
        let block = self.block(instance.of_type.text.as_str())?;
        port_in(block, name).or(numbered(instance, name))
    }
}
