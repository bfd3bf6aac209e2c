//! Room: network. Rates of peers: how often each may send, kept by a bucket of its own.
//! Who keeps to its rate is never refused (`who_keeps_to_a_rate_passes`), what passes keeps to it (`what_passes_keeps_to_a_rate`), and no peer costs another
//! one anything, whatever each of them sends (`no_peer_costs_another_one`, `a_peer_within_its_rate_loses_nothing`). Moments are nanoseconds; one that is
//! before the last is harmless.
#![tactic(auto)]

mod bucket;
mod buckets;
mod law;
mod rate;

pub use bucket::Bucket;
pub use buckets::{Buckets, Paced};
pub use law::{
    a_clock_gives_moments, a_peer_within_its_rate_loses_nothing, no_peer_costs_another_one,
    what_passes_keeps_to_a_rate, who_keeps_to_a_rate_passes,
};
pub use rate::Rate;

#[cfg(test)]
mod tests;
