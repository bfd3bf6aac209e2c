//! Room: checker. Whether the RANGE rows hold: within their types, kept by what runs, and wide enough for what comes in.
//! `rows_clear` accepts only where all is clear; each refusal names a variable, an algorithm or a state of which it is not so (`refusals_deny`).
#![tactic(auto)]

mod alike;
mod begin;
mod clear;
mod examined;
mod law;
mod leaf;
mod link;
mod place;
mod row;
mod run;
mod span;

pub use alike::are_alike;
pub use begin::{first_range, start_range};
pub use clear::rows_clear;
pub use law::refusals_deny;
pub use link::source_named;
pub use place::{Places, leaves_of, places};
pub use row::{block_rows, leaf_row};
