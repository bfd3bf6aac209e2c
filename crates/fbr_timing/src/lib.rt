//! Room: program. What `fbr time` tells of a verified system: dispatches, work, time and response of each event, a way, and lists of prices.
//! Nothing here has a contract: tables, ways, JSON and how a list of prices is read are tested.
#![tactic(auto)]

mod counted;
mod duration;
mod halt;
mod list;
mod rates;
mod report;
mod response;
mod settled;
mod table;
mod text;
mod way;

pub use halt::{Halt, fault_of};
pub use text::text_of;
