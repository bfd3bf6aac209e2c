//! Room: cases. What the calls up to the verdict answer for a case, as short text.
//! No contracts: the answers are compared with stored ones.
#![tactic(auto)]

mod case;
mod declared;
mod kinds;
mod ranges;
mod systems;
mod text;
mod texts;
mod trees;
mod walks;

pub use case::{Case, Section};
pub use kinds::answer;
pub use text::{ended, refused, text_of};
