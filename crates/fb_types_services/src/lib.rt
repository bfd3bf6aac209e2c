//! Room: language. Services by their declarations: numbers, channels with their formats, value types and ports.
//! `served` accepts exactly the declarations of services, and answers None just where the type's name is no service's. Ports are exactly the book's.
#![tactic(auto)]

mod declared;
mod interface;
mod names;
mod number;
pub mod points;
mod service;

pub use declared::{bare, served};
pub use service::{Channel, Service};
