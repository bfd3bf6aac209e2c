//! Blocks, events, states and variables by numbers and slots, each beside its name.

use arrayvec::ArrayVec;
use fb_types_blocks::Block as BlockType;
use fb_types_services::Service;
use st_exec::{Code, Procedure};
use std::rc::Rc;

/// The most values of one event.
pub const MOST_VALUES: usize = 16;

/// The values of one event.
pub type Values = ArrayVec<i64, 16>;

/// An event input or an arrival of a block: the block's number in its device, and the event's number in its block. Both count from 0.
#[derive(Clone, Copy)]
pub struct Point {
    pub block: u16,
    pub event: u16,
}

/// Where a data input takes its value from.
#[derive(Drop)]
pub enum Source {
    /// The data output of this name and this slot, of the block of this number in the device.
    Output(u16, String, usize),
    /// A constant: this number, or an array whose elements are all this number.
    Number(i64),
}

/// A data input that takes a value at an event: its slot, and how many slots it has.
#[derive(Drop)]
pub struct Take {
    pub input: String,
    pub slot: usize,
    pub count: usize,
    pub source: Source,
}

/// An event input or an arrival: the steps and the places of its WEIGHT row, the steps of its FAR row where the certificate has REPEATS, and the data inputs
/// that it is WITH.
#[derive(Drop)]
pub struct Event {
    pub name: String,
    pub steps: u64,
    pub places: u64,
    pub far: Option<u64>,
    pub takes: Vec<Take>,
}

/// A data output that is issued: its slot among the working values, its slot among the issued ones, and how many slots it has.
#[derive(Drop)]
pub struct Give {
    pub output: String,
    pub own: usize,
    pub issued: usize,
    pub count: usize,
}

/// An event output: where it leads, in the order of the connection text, and the data outputs that it is WITH.
#[derive(Drop)]
pub struct Output {
    pub name: String,
    pub targets: Vec<Point>,
    pub gives: Vec<Give>,
}

/// An action of a state: the number of the algorithm that it runs, and the number of the event output that it emits.
#[derive(Clone, Copy)]
pub struct Action {
    pub algorithm: Option<u16>,
    pub output: Option<u16>,
}

/// A transition that leaves a state: the numbers of the state that it enters and of its event, and its guard. Without an event and without a guard it is
/// crossed freely.
#[derive(Drop)]
pub struct Transition {
    pub target: u16,
    pub event: Option<u16>,
    pub guard: Option<Code>,
}

/// A state of a chart, with its actions in order and the transitions that leave it, in text order.
#[derive(Drop)]
pub struct State {
    pub name: String,
    pub actions: Vec<Action>,
    pub transitions: Vec<Transition>,
}

/// What runs of a chart: its states, of which the first is the initial one, and its algorithms in the order of the block type's. Instances of one
/// block type share it.
#[derive(Drop)]
pub struct ChartCode {
    pub states: Vec<State>,
    pub procedures: Vec<Procedure>,
}

/// An execution control chart: IEC 61499-1 edition 2, 5.2.1.2.
#[derive(Drop)]
pub struct Chart {
    pub block: Rc<BlockType>,
    pub code: Rc<ChartCode>,
}

/// What a block is made of.
#[derive(Drop)]
pub enum Body {
    Chart(Chart),
    /// A service interface: IEC 61499-1 edition 2, 6.1.
    Served(Service),
}

/// A basic or service instance.
#[derive(Drop)]
pub struct Block {
    /// Device, resource and instance names, joined by dots.
    pub path: String,
    /// The number of its resource.
    pub resource: u16,
    /// Its event inputs and then its arrivals, in the order of its type.
    pub events: Vec<Event>,
    /// Its event outputs, in the order of its type.
    pub outputs: Vec<Output>,
    pub body: Body,
}
