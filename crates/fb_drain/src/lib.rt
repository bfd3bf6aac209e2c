//! Room: device. Serving a resource of a world until nothing is pending there, and who is told of each dispatch.
//! That it ends is the certificate's: each dispatch makes what is pending lighter, so there are at most as many as the entries weigh that were pending before.
#![tactic(auto)]

mod draining;
mod witness;

pub use draining::drain;
pub use witness::Witness;
