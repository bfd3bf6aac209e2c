//! Room: checker. What programs ask of the checker: the verdict, and whether places that are shown are a closed walk. It hands on names alone.
#![tactic(auto)]

pub use fb_faults::{Place, Refusal};
pub use fb_find_demands::check_walk;
pub use fb_verdict::{Verified, check, check_text, read_system};
