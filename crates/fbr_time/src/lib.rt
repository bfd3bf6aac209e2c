//! Room: program. `fbr time`: how many dispatches, how much work and how much time each event takes at most.
//! What is refused is refused as `check` refuses it, and no file is written. Not said: what is printed of an accepted system; this is tested.
#![tactic(auto)]

mod answer;

pub use answer::time;
