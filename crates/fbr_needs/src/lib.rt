//! Room: program. What rows of a certificate say and what they need, as values: sums term by term, queues, ranges, rows that are missing, how cycles go on, and floods of events.
//! No contracts: what it finds is tested.
#![tactic(auto)]

mod chart;
mod counts;
mod flood;
mod led;
mod queue;
mod range;
mod row;
mod service;
mod sum;
mod term;
mod walk;

pub use counts::{Counts, counts_of};
pub use flood::{Flood, Link, flood_of};
pub use queue::{Arrival, ArrivalKind, Queue, queue_in, queue_of};
pub use range::{Linked, RangeLink, RangeStart, range_link, range_start};
pub use row::{Missing, Numbers, missing_channel, missing_row};
pub use sum::{Sum, channel_sum, charge_sum, far_sum, weight_sum};
pub use term::{Cause, Of, Term};
pub use walk::{Grounds, Step, Way, steps_of};
