//! Room: checker. Whether the rows of states, events and channels pay for what they have to: steps, places, and steps on all devices.
//! `column_pays` and `channels_pay` accept only where every row pays, over whole numbers; each refusal names a row that does not (`refusals_deny`).
#![tactic(auto)]

mod channel;
mod chart;
mod column;
mod cost;
mod costed;
mod laws;
mod leaf;
mod pays;
mod rows;
mod service;
mod weights;

pub use channel::channels_pay;
pub use column::Column;
pub use laws::{channels_deny, refusals_deny};
pub use pays::column_pays;
