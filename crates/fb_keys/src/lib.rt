//! Room: program. The keys of a plant as a file says them, and the state in which counters survive a restart.
//! A file of keys is read exactly as its definition reads it, each fault with its line (`read_keys`). A state is written as exactly its text, which ends with
//! the tag of all before it, and only a text that is some state's is read (`read_state`). Own counters never come again, in whatever life with one file
//! (`counters_only_grow`).
#![tactic(auto)]

mod keys;
mod law;
mod line;
mod rate;
mod reading;
mod state;

pub use keys::{Keys, KeysFault, read_keys};
pub use law::counters_only_grow;
pub use line::{Key, Line, PeerLine, read_line};
pub use reading::read_state;
pub use state::{Entry, State, mark_of, spell};
