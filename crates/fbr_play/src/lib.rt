//! Room: program. Plays stories on worlds of devices, and tells what came otherwise than they say.
//! What is played and compared is tested, and no contract says it.
#![tactic(auto)]

mod blocks;
mod notes;
mod report;
mod stories;
mod story_file;

pub use stories::{Played, Stories, play_all};
