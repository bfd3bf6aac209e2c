//! Room: program. Words of a command, of a script or of a record, and the numbers in them: decimal digits, and a minus where a value may have one.
#![tactic(auto)]

mod number;
mod words;

pub use number::{read_long_number, read_number, read_value, read_wide_number};
pub use words::words_of;
