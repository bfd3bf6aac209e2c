//! Room: program. What `fbr draw` writes: a system as a graph in DOT, with weights, depths and cycles; and what charts share with it.
//! No contracts: what it writes is tested.
#![tactic(auto)]

mod channel;
mod cluster;
mod constant;
mod device;
mod edge;
mod head;
mod joined;
mod leaf;
mod legend;
mod margin;
mod picture;
mod port;
mod system;
mod text;
mod walk;

pub use legend::{close_title, open_title, write_note, write_refused, write_walk};
pub use picture::Picture;
pub use system::draw;
pub use text::shown;
