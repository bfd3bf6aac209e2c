//! Typed networks.

use fb_types_blocks::{Block, Face};
use fb_types_services::Service;
use std::rc::Rc;

/// The value of a data input of an instance.
#[derive(Drop)]
pub struct Parameter {
    pub name: String,
    pub value: i64,
}

/// A port of an instance, or of the composite itself.
#[derive(PartialEq, Eq, Hash, Drop)]
pub struct End {
    pub instance: Option<String>,
    pub port: String,
}

/// A connection.
#[derive(Drop)]
pub struct Connection {
    pub source: End,
    pub target: End,
}

/// What an instance is made of. Instances of one type share it.
#[derive(Drop)]
#[cycle(body)]
pub enum Body {
    /// A basic block.
    Basic(Rc<Block>),
    Served(Service),
    /// A composite: its interface and what it is made of.
    Composite(Rc<Face>, Rc<Network>),
}

/// A function block instance, with the offset of its name.
#[derive(Drop)]
#[cycle(body)]
pub struct Instance {
    pub name: String,
    pub at: usize,
    pub parameters: Vec<Parameter>,
    pub body: Body,
}

/// Instances, and connections of events and of data, in text order.
#[derive(Drop)]
#[cycle(body)]
pub struct Network {
    pub instances: Vec<Instance>,
    pub events: Vec<Connection>,
    pub values: Vec<Connection>,
}
