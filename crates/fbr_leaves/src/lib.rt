//! Room: program. What was read of an application, once: its source tree, its system and its leaves; and parts of these by their paths, numbers and channels.
//! No contracts: what it finds is tested.
#![tactic(auto)]

mod channel;
mod number;
mod seen;
mod system;

pub use channel::{admitted, channel_of, number_of, received_from, sent_on, types_of};
pub use number::{Numbers, leaves_in, leaves_of, numbered};
pub use seen::{block_in, leaf_at, place_at, resource_at};
pub use system::{Resolved, System, system_again, system_in};
