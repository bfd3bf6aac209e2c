//! Room: finder. The finder that tries proposed ranges where those of its rounds are not clear, and the one that keeps given ranges.
//! What `find_keeping` and `search` answer fits, and no certificate with its ranges that fits has a smaller number; what `find_keeping` refuses is so within rows of
//! which the first are those that are given, and `search` refuses as `find` does. How far they get is tested alone.
#![tactic(auto)]

mod searching;

pub use searching::{find_keeping, search};
