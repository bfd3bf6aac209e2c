//! Room: program. Scripts of `fbr sim`: a line an event, and the lines that answer.
//! A line is read exactly as it is spelled, its answer is that of the event in the book's world, and a script runs to its first bad line, which is told.
//! A witness is told why a line was denied or is bad: that what a line names is not there is proved, and which word of it is misread is tested.
#![tactic(auto)]

mod line;
mod playing;
mod run;
mod told;
mod witness;

pub use line::{Line, LineFault, Misread, read_line};
pub use playing::{Asked, Missing, ask, tell, tell_dispatched};
pub use run::{End, next_text, simulate};
pub use told::{Told, Written};
pub use witness::{Witness, hear, hear_unknown};
