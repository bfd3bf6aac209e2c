//! Typed block types.

use fb_words::ElemType;
use indexmap::IndexMap;
use st_types::{Algo, TypedExpr};

/// A variable of a block: its type, the lowest and the highest index of an array, and its start value.
#[derive(Clone, Copy)]
pub struct Variable {
    pub of_type: ElemType,
    pub bounds: Option<(i64, i64)>,
    pub start: Option<i64>,
}

/// Variables by their names, in text order.
pub type Variables = IndexMap<String, Variable>;

/// Events by their names, in text order, with the variables that each is WITH.
pub type Events = IndexMap<String, Vec<String>>;

/// The interface of a block: IEC 61499-1 edition 2, 4.5.
#[derive(Drop)]
pub struct Face {
    pub event_inputs: Events,
    pub event_outputs: Events,
    pub inputs: Variables,
    pub outputs: Variables,
}

/// An action: the algorithm that it runs and the event output that it emits.
#[derive(Drop)]
pub struct Action {
    pub algorithm: Option<String>,
    pub output: Option<String>,
}

/// A transition of a chart. Without an event and without a guard it is crossed freely.
#[derive(Drop)]
pub struct Transition {
    pub source: String,
    pub target: String,
    pub event: Option<String>,
    pub guard: Option<TypedExpr>,
}

/// The execution control chart of a basic block, and its algorithms.
#[derive(Drop)]
pub(crate) struct ControlChart {
    pub(crate) states: IndexMap<String, Vec<Action>>,
    pub(crate) transitions: Vec<Transition>,
    pub(crate) procedures: IndexMap<String, Algo>,
}

/// A basic block type: IEC 61499-1 edition 2, 5.2. Its first state is the initial one.
#[derive(Drop)]
pub struct Block {
    pub face: Face,
    pub internals: Variables,
    /// The actions of each state, by the states' names, in text order.
    pub states: IndexMap<String, Vec<Action>>,
    pub transitions: Vec<Transition>,
    pub procedures: IndexMap<String, Algo>,
}
