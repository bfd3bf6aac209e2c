//! Room: program. The commands of `fbr` that look at an application and run nothing: `bound`, `check`, `explain`, `draw` and `pack`; and how a fault is told.
//! What is told first is true of what was read, and no file is written but the one that the words name. Not said: what `explain`, `draw` and JSON write.
#![tactic(auto)]

mod bounding;
mod checking;
mod drawing;
mod explaining;
mod given;
mod json;
mod misread;
mod noted;
mod packing;

pub use bounding::bound;
pub use checking::{check, check_input};
pub use drawing::draw;
pub use explaining::{explain, explain_placed};
pub use given::{Files, given_of, named, tell};
pub use json::{Told, clash_told, print_memory, print_told, refused};
pub use misread::{misused, tell_misread};
pub use packing::pack;
