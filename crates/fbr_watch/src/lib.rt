//! Room: program. Watches a run: what has changed, in lines for people or for programs, as a CSV table or a Value Change Dump (IEEE 1364); and what ran when, as a
//! timeline.
//! It looks after each dispatch, arrival and tick. Its memory goes with the size of the plant, that of a timeline with the length of the run.
//! No contracts: what it writes is tested.
#![tactic(auto)]

mod dump;
mod lanes;
mod lines;
mod objects;
mod table;
mod value;
mod watcher;
mod watching;
mod wish;

pub use watcher::{Form, RanAt, Watcher};
pub use watching::{Kept, Watching};
pub use wish::{Seen, Wish};
