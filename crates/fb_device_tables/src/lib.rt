//! Room: device. The tables of a device: blocks, events, charts, ports and targets by numbers and slots, and the block of each INPUT by its number.
//! They are exactly the device's leaves; nothing is refused but for want of memory.
#![tactic(auto)]

mod block;
mod body;
mod carry;
mod chart;
mod event;
mod give;
mod names;
mod number;
mod port;
mod seat;
mod state;
mod table;
mod take;
mod taker;
mod target;

pub use number::tables;
pub use table::{Resource, Tables};
