//! Room: program. Several texts as one: block types of some files, and behind them an application.
//! A `Joining` takes one text after another, and is at the end the text that they are together, in which a declaration counts once; `part_at` says which file a byte of
//! it is in.
#![tactic(auto)]

mod front;
mod joining;
mod meant;

pub use joining::{Joined, Joining};
pub use meant::{Meant, Part};
