//! Room: program. The course of a story's sequence: its steps are taken on a world of its own, up to the first at which something else came than it wants.
//! What is taken and compared is tested, and no contract says it.
#![tactic(auto)]

mod course;
mod failure;
mod looking;
mod playing;
mod seen;
mod telling;

pub use failure::{Case, Failure};
pub use playing::play_sequence;
pub use telling::Telling;
