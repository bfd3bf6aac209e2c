//! Leaves and their wires.

use fb_types_blocks::Block;
use fb_types_services::Service;
use std::rc::Rc;

/// An event input of a leaf that an event output leads to: the leaf's path and the event.
#[derive(Drop)]
pub struct Target {
    /// Device, resource and instance names, joined by dots.
    pub path: String,
    pub event: String,
}

/// An event output of a leaf, and where it leads, in the order of the connection text.
#[derive(Drop)]
pub struct Output {
    pub name: String,
    pub targets: Vec<Target>,
}

/// Where the value of a data input comes from.
#[derive(Drop)]
pub enum Source {
    /// A data output of a leaf: the leaf's path (names joined by dots) and the output's name.
    Output(String, String),
    /// A constant: one number.
    Number(i64),
    /// The elements of an array that is not connected: zeros, from the lowest index to the highest.
    Zeros(i64, i64),
}

/// A data input of a leaf, and where its value comes from.
#[derive(Drop)]
pub struct Input {
    pub name: String,
    pub source: Source,
}

/// What a leaf is.
#[derive(Drop)]
pub enum Body {
    Basic(Rc<Block>),
    Served(Service),
}

/// A basic or service instance.
#[derive(Drop)]
pub struct Leaf {
    /// Device, resource and instance names, joined by dots.
    pub path: String,
    pub body: Body,
    /// Its event outputs, in the order of its type.
    pub outputs: Vec<Output>,
    /// Its data inputs, in the order of its type.
    pub inputs: Vec<Input>,
}

/// A resource and its leaves, depth first in text order. Its path is the device's and its own name, joined by a dot.
#[derive(Drop)]
pub struct FlatResource {
    pub path: String,
    pub leaves: Vec<Leaf>,
}

/// A device: its resources in text order.
#[derive(Drop)]
pub struct FlatDevice {
    pub name: String,
    pub resources: Vec<FlatResource>,
}

/// All devices of a system.
#[derive(Drop)]
pub struct Flat {
    pub devices: Vec<FlatDevice>,
}

impl FlatResource {
    /// Lets its leaves go, as [`Flat::let_go`] does.
    pub fn let_go(self) {}
}

impl Flat {
    /// Lets the leaves go. (A crate that lets them go by itself proves the end of each of their parts anew; this call is proved once.)
    pub fn let_go(self) {}
}
