//! Room: program. The verdict over two texts of files, or over what standard input holds.
//! Two texts are accepted only where the certificate fits the application; a fault is one that a text has, or the two together.
#![tactic(auto)]

mod input;
mod verdict;

pub use input::input_outcome;
pub use verdict::{files_verified, texts_outcome, texts_verified};
