//! Room: checker. The verdict: whether a certificate fits an application.
//! `check_text` accepts exactly what is spelled, well typed and fits, unless memory runs out; a refusal is true. Which of several faults is told
//! is not said. What is accepted is a `Verified` of `fb_verified`, which fits by an invariant of its type.
#![tactic(auto)]

mod texts;
mod verdict;

pub use fb_verified::{Verified, devices_hold};
pub use texts::read_system;
pub use verdict::{check, check_text};
