//! Room: language. Instances with their parameters, and the event and data connections between them.
//! `plain`, `served` and `wire` accept exactly what is well typed, and answer its one typed form (`one_network`). A refusal is true at its place.
#![tactic(auto)]

mod body;
mod end;
mod event;
mod face;
mod instance;
mod laws;
mod typed;
mod value;
mod wiring;

pub use instance::{plain, served};
pub use laws::{one_network, refusals_are_true};
pub use typed::{Body, Connection, End, Instance, Network, Parameter};
pub use wiring::wire;
