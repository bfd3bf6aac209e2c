//! Room: program. Runs of scripts that are watched, or told to programs; and what people are told of lines that are denied or bad.
//! Nothing here has a contract: it is tested.
#![tactic(auto)]

mod causes;
mod station;
mod watched;

pub use causes::Causes;
pub use watched::{Simulated, run_watched};
