//! What can be watched of a system.

use fb_types_blocks::Block;
use fb_words::ElemType;

/// What a signal shows.
#[derive(Clone, Copy)]
pub enum Shown<'a> {
    /// The state of a chart.
    State(&'a Block),
    /// A value of this type.
    Value(ElemType),
    /// How many entries are pending in the queue of a resource.
    Queue,
    /// The steps so far of the cause whose entry a resource dispatched last.
    Steps,
}

/// A signal: what is compared after each dispatch.
#[derive(Drop)]
pub struct Signal<'a> {
    /// The place of its owner.
    pub owner: usize,
    /// The name of the variable; empty where it is none.
    pub variable: String,
    /// The index of an element of an array.
    pub index: Option<i64>,
    /// How many elements stand before it.
    pub before: usize,
    pub shown: Shown<'a>,
}

/// A block or a resource, by its number in its device.
#[derive(Clone, Copy)]
pub enum Site {
    Block(u16),
    Resource(u16),
}

/// A block or a resource of which something is watched: the signals from one place up to another.
#[derive(Drop)]
pub struct Owner<'a> {
    /// The place of its device among those that are watched.
    pub station: usize,
    pub site: Site,
    /// The names of the device and the resource, and of instances, joined by dots.
    pub path: &'a str,
    /// The shortest name within the device.
    pub name: String,
    pub from: usize,
    pub to: usize,
}

/// A device that is watched: its number and name, and the places of the owners of its blocks and resources, by their numbers.
#[derive(Drop)]
pub struct Station<'a> {
    pub number: u16,
    pub name: &'a str,
    pub blocks: Vec<Option<usize>>,
    pub resources: Vec<Option<usize>>,
}
