//! Room: network. The law of sealed links whose gate is a bucket for each peer: over any receives, who keeps to its rate loses nothing because of another
//! (`a_peer_within_its_rate_is_handed_on`).
#![tactic(auto)]

mod law;

pub use law::a_peer_within_its_rate_is_handed_on;
