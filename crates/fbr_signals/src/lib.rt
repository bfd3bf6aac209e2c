//! Room: program. What can be watched of a run: states, variables, queues and steps, by the names that people give them.
//! It looks at the leaves of a system, and at no device. No contracts: what it finds is tested.
#![tactic(auto)]

mod fault;
mod leaves;
mod pattern;
mod search;
mod signal;
mod signals;

pub use fault::Unwatched;
pub use signal::{Owner, Shown, Signal, Site, Station};
pub use signals::{Signals, find_signals, find_signals_of};
