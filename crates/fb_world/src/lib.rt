//! Room: device. A world of devices with their datagrams, which may be lost, repeated and reordered, and with the root of all that happens.
//! Each event is one of the book's world. From its first state on a world is sound (`IsWorldSound`), and where a root's datagrams without a stamp were each
//! admitted at most REPEATS times at each device, its steps on all devices are at most the FAR of its opening.
#![tactic(auto)]

mod answer;
mod often;
mod world;

pub use answer::{Missed, RootSteps, TooOften};
pub use world::World;
