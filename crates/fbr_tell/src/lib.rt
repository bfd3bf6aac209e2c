//! Room: program. What people are told: the lines on standard error, the page of `explain`, and the picture of `draw`.
//! It reads no files: texts come as they were read. No contract but of statuses: what it prints is tested.
#![tactic(auto)]

mod all;
mod chart;
mod colour;
mod devices;
mod draw;
mod given;
mod line;
mod noted;
mod page;
mod shallow;
mod stray;
mod teller;

pub use all::{Listener, tell_all};
pub use colour::paint;
pub use draw::{Drawing, picture};
pub use given::{Given, Held, NamedFile};
pub use line::hint;
pub use noted::{Words, tell_noted};
pub use page::{
    Answer, Page, accepted_page, refused_page, tell_accepted, tell_alone, tell_fault, write_number,
};
pub use shallow::{tell_shallow, write_warning};
pub use teller::Teller;
