//! Room: language. Interfaces and basic blocks by their declarations.
//! `face` and `basic` accept exactly what is well typed, and answer its one typed form (`one_face`, `one_block`); `constant` answers the number of a constant.
//! A refusal is true at its place (`refusals_are_true`: what is well typed has no fault that one could name).
#![tactic(auto)]

mod block;
mod chart;
mod event;
mod interface;
mod laws;
mod names;
mod number;
mod scope;
mod typed;
mod variable;

pub use block::basic;
pub use interface::face;
pub use laws::{one_block, one_face, refusals_are_true};
pub use names::{Named, at_most, contains, declare, insert, known, known_if_some, optional, table};
pub use number::constant;
pub use typed::{Action, Block, Events, Face, Transition, Variable, Variables};
