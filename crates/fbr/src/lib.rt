//! Room: program. The commands of `fbr` as a library: `command` over the words, a source of files, a reader and two writers.
//! One outcome is written, and it is true of what was read; no file is written but those that the words name. Not said: that the program does not give up
//! (9, 61, 62, or status 3), and what help, `explain` and `draw` write.
#![tactic(auto)]

mod order;
mod piped;
mod run;
mod together;

pub use piped::input_named;
pub use run::command;
