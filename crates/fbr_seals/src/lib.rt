//! Room: program. The seals of a device: its keys out of files, its state file, and new keys.
//! A state is taken once: the file holds the next one before it is used, so that no own counter is used twice (`take_state`, `StateFile`). Each peer is asked for
//! its rate at moments that do not go back (`Pace`). What people are told of keys is tested, and no contract says it.
#![tactic(auto)]

mod keep;
mod made;
mod pace;
mod seals;
mod secrets;
mod taking;

pub use keep::StateFile;
pub use made::make_key;
pub use pace::Pace;
pub use seals::{Seals, open_seals};
pub use taking::take_state;
