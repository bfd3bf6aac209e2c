//! Source trees of declarations. A place is the offset of a token's first byte.

use crate::expression::Expr;
use crate::literal::Constant;
use crate::name::Name;
use crate::statement::Stmt;
use fb_words::ElemType;

/// An event of a block, and the variables that it is WITH.
#[derive(Drop)]
pub struct EventTree {
    pub name: Name,
    pub carries: Vec<Name>,
}

/// The lowest and the highest index of an array.
#[derive(Clone, Copy)]
pub struct BoundsTree {
    pub low: Constant,
    pub high: Constant,
}

/// A start value, with the place of its `:=`.
#[derive(Clone, Copy)]
pub struct StartTree {
    pub at: usize,
    pub value: Constant,
}

/// Variables of one type, of an array's elements where there are bounds.
#[derive(Drop)]
pub struct VariableTree {
    pub names: Vec<Name>,
    pub bounds: Option<BoundsTree>,
    pub of_type: ElemType,
    pub start: Option<StartTree>,
}

/// An action: the algorithm that it runs and the event output that it emits.
#[derive(Drop)]
pub struct ActionTree {
    pub algorithm: Option<Name>,
    pub output: Option<Name>,
}

/// A state with its actions.
#[derive(Drop)]
pub struct StateTree {
    pub name: Name,
    pub actions: Vec<ActionTree>,
}

/// A guard, with the place of its `[`.
#[derive(Drop)]
pub struct GuardTree {
    pub at: usize,
    pub condition: Expr,
}

/// A transition. Without an event and without a guard its condition is 1.
#[derive(Drop)]
pub struct TransitionTree {
    pub source: Name,
    pub target: Name,
    pub event: Option<Name>,
    pub guard: Option<GuardTree>,
}

/// An algorithm in Structured Text.
#[derive(Drop)]
pub struct AlgorithmTree {
    pub name: Name,
    pub body: Vec<Stmt>,
}

/// What a basic block does.
#[derive(Drop)]
pub struct ChartTree {
    pub internals: Vec<VariableTree>,
    pub states: Vec<StateTree>,
    pub transitions: Vec<TransitionTree>,
    pub algorithms: Vec<AlgorithmTree>,
}

/// A parameter of an instance, with the place of its `:=`.
#[derive(Drop)]
pub struct ParameterTree {
    pub name: Name,
    pub at: usize,
    pub value: Constant,
}

/// A function block instance: its parameters, and the types in square brackets, where these stand.
#[derive(Drop)]
pub struct InstanceTree {
    pub name: Name,
    pub of_type: Name,
    pub types: Option<Vec<ElemType>>,
    pub parameters: Vec<ParameterTree>,
}

/// A port of an instance, or an own port where there is no second name.
#[derive(Drop)]
pub struct PortTree {
    pub first: Name,
    pub second: Option<Name>,
}

/// A connection, with the place of its TO.
#[derive(Drop)]
pub struct ConnectionTree {
    pub source: PortTree,
    pub at: usize,
    pub target: PortTree,
}

/// What composites and resources are made of: instances, and connections of events and of data.
#[derive(Drop)]
pub struct NetworkTree {
    pub instances: Vec<InstanceTree>,
    pub events: Vec<ConnectionTree>,
    pub values: Vec<ConnectionTree>,
}

/// What a block type is made of.
#[derive(Drop)]
pub enum BodyTree {
    /// A basic block.
    Chart(ChartTree),
    /// A composite.
    Network(NetworkTree),
}

/// The declaration of a block type.
#[derive(Drop)]
pub struct BlockTree {
    pub name: Name,
    pub event_inputs: Vec<EventTree>,
    pub event_outputs: Vec<EventTree>,
    pub inputs: Vec<VariableTree>,
    pub outputs: Vec<VariableTree>,
    pub body: BodyTree,
}

/// A resource.
#[derive(Drop)]
pub struct ResourceTree {
    pub name: Name,
    pub network: NetworkTree,
}

/// A device: its resources.
#[derive(Drop)]
pub struct DeviceTree {
    pub name: Name,
    pub resources: Vec<ResourceTree>,
}

/// The system: its devices.
#[derive(Drop)]
pub struct SystemTree {
    pub name: Name,
    pub devices: Vec<DeviceTree>,
}

/// A whole text: block types and one system.
#[derive(Drop)]
pub struct FileTree {
    pub blocks: Vec<BlockTree>,
    pub system: SystemTree,
}

impl FileTree {
    /// Lets the tree go. (A crate that lets a tree go by itself proves the end of each of its parts anew; this call is proved once.)
    pub fn let_go(self) {}
}
