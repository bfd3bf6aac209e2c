//! Room: finder. Rows with their least numbers: CHARGE, WEIGHT, DEPTH, FAR, FARSTATE and CHANNEL, or the resource that is above a limit.
//! `solved` answers the least numbers of all nodes, `add_depths` the least depths; which of several closed walks is told is not said.
#![tactic(auto)]

mod adding;
mod far;
mod need;
mod order;
mod place;
mod resource;
mod rows;
mod solving;

pub use adding::add_depths;
pub use far::{add_channels, add_far_states, add_fars};
pub use order::sorted;
pub use place::{place_at, places};
pub use rows::{add_charges, add_weights};
pub use solving::{Nodes, solved};
