//! Room: program. What people and programs are told of a device in its turns: denials, what was not sent, sums, and objects for each answer.
//! Of the sums each clause says what they are; what else is told is tested, and no contract says it.
#![tactic(auto)]

mod dropping;
mod objects;
mod shapes;
mod stop;
mod sums;
mod telling;

pub use dropping::{Counts, Drops, tell_unsealed};
pub use objects::{arrival_object, dispatch_object, turn_object};
pub use shapes::{Misfit, Shapes};
pub use stop::Stop;
pub use sums::Sums;
pub use telling::{Past, Teller};
