//! Room: program. A device of two files that takes turns over a link, and prints what it writes.
//! `serve_on` takes turns over any link, prints exactly what they write unless a line is lost, and answers what they did in all; `take_boot` takes a boot
//! once. A link that seals is a link, and what it makes of its socket's answers is said call by call. What becomes of datagrams at a socket is not said, nor what
//! people are told on standard error.
#![tactic(auto)]

mod boot;
mod ended;
mod law;
mod looking;
mod notes;
mod printing;
mod replay;
mod sealed;
mod serve;
mod timer;
mod turns;
mod waiting;

pub use boot::take_boot;
pub use law::replays_are_alike;
pub use looking::{Blind, Look, Viewer};
pub use replay::{Replayed, Subject, load_recorded, replay_ready, replay_told};
pub use serve::{load_device, serve_ready};
