//! Room: program. The commands of `fbr` that run devices: `sim`, `play`, `replay` and `serve`; and the files in which something of a run is kept.
//! What is told at the end is true of the run, and no file is written but those that the words name. Not said: what of a run is shown on the way, and what JSON says.
#![tactic(auto)]

mod kept;
mod playing;
mod replaying;
mod reporting;
mod serving;
mod simulating;

pub use kept::{OVERWRITTEN, is_read, overwrites};
pub use playing::play;
pub use replaying::replay;
pub use serving::serve;
pub use simulating::sim;
