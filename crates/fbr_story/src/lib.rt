//! Room: program. Reads stories: tests of plants that read like the service sequences of IEC 61499-1, a stimulus on the left, and on the right what the outside
//! sees of it. A story is read whole, and each name in it resolved, before anything is played. No contracts: what is read is tested.
#![tactic(auto)]

mod arguments;
mod expectation;
mod reading;
mod sequences;
mod stimulus;
mod story;
mod values;

pub use sequences::{read_story, unknown_block};
pub use story::{
    Action, Arrival, Cause, Expected, Fate, Looked, Sequence, Span, Step, Stimulus, Variable,
    Wanted, WantedWrite,
};
pub use values::show_value;
