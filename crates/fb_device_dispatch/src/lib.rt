//! Room: device. A dispatch: the first entry is taken, its block runs to its end, what it emits is entered, its timer is armed or disarmed.
//! `dispatch` is one dispatch of the book's device, with its steps, its effect and the end of its cause.
#![tactic(auto)]

mod answer;
mod dispatching;
mod queue;
mod timing;

pub use answer::{Dispatched, Ended, Ran};
pub use dispatching::dispatch;
