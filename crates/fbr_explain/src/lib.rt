//! Room: program. The pages of `fbr explain`: diagnoses in words, with their sums and cycles; and the bounds of what fits, with notes.
//! No contracts: what it prints is tested.
#![tactic(auto)]

mod beside;
mod bounds;
mod channels;
mod finding;
mod flood;
mod notes;
mod told;
mod turns;
mod walk;

pub use bounds::tell_bounds;
pub use channels::{Ways, channels_behind, leaves_by_channel};
pub use finding::{tell_found, tell_lead};
pub use told::{meaning_parts, narrower_said, tell_diagnosis, tell_short};
pub use turns::{Counted, Dispatches, dispatches_of};
