//! Room: device. One dispatch of a block: inputs are sampled, its chart or service runs to its end, and what its outputs reach is emitted.
//! `invoke` is the book's chart, `serve` its seven services, and a dispatch of a block is either: values, what is remembered, steps, effect, emissions in order.
//! Callers show that nothing traps, that there is room, and that what is sent is in its types.
#![tactic(auto)]

mod block;
mod chart;
mod dispatch;
mod emit;
mod memory;
mod quality;
mod response;
mod sampling;
mod standing;
mod table;
mod timer;
mod transfer;

pub use block::dispatch_block;
pub use chart::{Invocation, invoke};
pub use dispatch::{ServiceTable, serve};
pub use emit::{Emit, send};
pub use memory::{Condition, Memory};
pub use sampling::sample;
pub use st_exec::Store;
pub use standing::{Effect, Occurrence, Ports, Stamps, Standing};
pub use table::{
    Action, Block, Body, Chart, ChartCode, Event, Give, MOST_VALUES, Output, Point, Source, State,
    Take, Transition, Values,
};
