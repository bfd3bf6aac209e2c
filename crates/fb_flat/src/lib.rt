//! Room: language. The leaves of a system through composites: where their event outputs lead, and where their data inputs take their values from.
//! `flatten` answers exactly the book's leaves, depth first in text order, or the limit of 8,192 followed connections of a resource (`tables_are_leaves`).
#![tactic(auto)]

mod bundle;
mod constant;
mod enter;
mod flat;
mod give;
mod hold;
mod inputs;
mod laws;
mod leave;
mod leaves;
mod lookup;
mod position;
mod site;
mod walk;

pub use flat::{Body, Flat, FlatDevice, FlatResource, Input, Leaf, Output, Source, Target};
pub use laws::{
    all_inputs_are_written, limits_are_at_resources, paths_are_read_back, tables_are_leaves,
};
pub use leaves::{FOLLOWED, flatten, flatten_resource, service_again};
pub use site::joined;
