//! Room: program. A script on standard input, run on the world of a system's devices, line by line.
//! What is told is what the first world of the system answers line by line; a script that is refused is told by its line.
#![tactic(auto)]

mod sim;

pub use sim::{print_end, run_input};
