//! Room: finder. The work that each demand of a leaf asks for: "what does a dispatch cost where this transition is crossed".
//! `leaf_works` tells the numbers of the definitions, demand by demand, up to the first that stands for all greater ones.
#![tactic(auto)]

mod action;
mod chart;
mod input;
mod leaf;
mod output;
mod scene;
mod service;
mod trial;

pub use leaf::leaf_works;
pub use scene::Scene;
