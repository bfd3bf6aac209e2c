//! Room: book. What a device does, primitive by primitive, and a price for each.
//! Contracts: each primitive has a number and a word, and a list of prices says one price for each (`Prices::price`).
#![tactic(auto)]

mod prices;
mod primitive;

pub use prices::Prices;
pub use primitive::{PRIMITIVES, Primitive};
