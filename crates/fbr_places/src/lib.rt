//! Room: program. Where in a text the places of its system stand: what paths name, and bytes by line and column; and texts for people, put together in memory.
//! No contracts: what it finds is tested.
#![tactic(auto)]

mod around;
mod declared;
mod library;
mod named;
mod near;
mod ports;
mod spot;
mod tree;
mod writing;

pub use around::{
    block_around, connection_at, device_around, instance_around, network_around, resource_around,
};
pub use declared::{Declared, declared_at, instance_at, instance_named};
pub use library::FACES;
pub use named::{Located, Named, tell_where};
pub use near::{distance, nearness};
pub use ports::{Port, Types, port_in, type_named};
pub use spot::Spot;
pub use tree::{tokens_of, tree_in, tree_of};
pub use writing::Writing;
