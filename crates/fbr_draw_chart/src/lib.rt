//! Room: program. What `fbr draw --chart` writes: the execution control chart of a block type as a graph in DOT, with charges and cycles.
//! No contracts: what it writes is tested.
#![tactic(auto)]

mod charge;
mod chart;
mod guard;
mod state;
mod transition;

pub use chart::draw_chart;
