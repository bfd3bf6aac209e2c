//! Room: language. Source trees of whole sources to typed systems, with whichever event blocks are given.
//! `resolve_with` accepts exactly the sources that are well typed, and answers their one system (`one_system`), whichever declarations the event blocks have.
//! A type is called too deep only if no ring can be reached from it, and the first declared one is named.
#![tactic(auto)]

mod count;
mod device;
mod ends;
mod laws;
mod made;
mod make;
mod numbers;
mod resource;
mod rings;
mod shapes;
mod source;
mod table;
mod typed;
mod uses;

pub use count::few;
pub use ends::{channels_alike, numbers_differ};
pub use laws::{event_blocks_are_alike, one_system, refusals_are_true};
pub use numbers::differ;
pub use shapes::alike;
pub use source::resolve_with;
pub use st_types::{Algo, TypedExpr};
pub use typed::{Configuration, Device, Resource, Typed};
pub use uses::{Use, gather_all};
