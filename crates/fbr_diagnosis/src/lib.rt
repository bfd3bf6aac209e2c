//! Room: program. Diagnoses of refusals, as values: the number, the place in a text, what is needed and what is there, what to do, and what they were made of.
//! No contracts: what it finds is tested. What a number means is made of `docs/REFUSALS.md` by `dev/refusals.py`.
#![tactic(auto)]

mod diagnosis;
mod heard;
mod inner;
mod meaning;
mod notes;
mod paths;
mod place;
mod reading;
mod returning;
mod text;
mod unbound;
mod verdict;
mod wrapped;

pub use diagnosis::{Advised, Asked, Diagnosis, Finding};
pub use meaning::{Meaning, found_limit, meaning_of};
pub use notes::notes_of;
pub use place::byte_in;
pub use reading::Reading;
pub use unbound::diagnose_unbound;
pub use verdict::diagnose;
