//! Room: checker. Whether a certificate has exactly the rows that a system must have, and whether its queues are deep enough.
//! `rows_match` and `depths_fit` accept exactly that; each refusal names a row that is unknown or missing, or a resource whose queue is too shallow.
#![tactic(auto)]

mod begin;
mod channel;
mod depth;
mod depth_law;
mod kind;
mod law;
mod matching;
mod requirement;
mod resource;

pub use begin::begin_places;
pub use channel::channel_of;
pub use depth::depths_fit;
pub use depth_law::refusals_deny;
pub use kind::RowKind;
pub use law::no_row_is_spelled_twice;
pub use matching::rows_match;
pub use requirement::required;
pub use resource::arrival_places;
