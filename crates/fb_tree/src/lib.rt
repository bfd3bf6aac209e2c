//! Room: language. Source trees of whole texts: names with their places, constants, expressions, statements and declarations, and what they are in the book.
//! Parsers and typing share it, and neither stands on the other. That its views are right is shown by the parsers, whose contracts speak of them.
#![tactic(auto)]

mod expression;
mod literal;
mod name;
mod statement;
mod tree;

pub use expression::{Expr, Link};
pub use literal::{Constant, Literal};
pub use name::Name;
pub use statement::{Arm, Bound, Branch, Label, Stmt};
pub use tree::{
    ActionTree, AlgorithmTree, BlockTree, BodyTree, BoundsTree, ChartTree, ConnectionTree,
    DeviceTree, EventTree, FileTree, GuardTree, InstanceTree, NetworkTree, ParameterTree, PortTree,
    ResourceTree, StartTree, StateTree, SystemTree, TransitionTree, VariableTree,
};
