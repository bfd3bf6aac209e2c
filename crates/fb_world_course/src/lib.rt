//! Room: device. How far a world of devices has come: its devices, the datagrams that were sent, and the roots that were opened.
//! What an event makes of a course is what it makes of the book's world (`Goes`), and whatever a course is kept by stays so (`IsKept`).
//! A course takes no memory but where room is made for events (`reserve`).
#![tactic(auto)]

mod answer;
mod beginning;
mod course;
mod room;
mod sent;
mod station;

pub use answer::{OutOfMemory, WorldAnswer, WorldEvent};
pub use beginning::first_course;
pub use course::Course;
pub use sent::Sent;
pub use station::{Root, Station, numbered};
