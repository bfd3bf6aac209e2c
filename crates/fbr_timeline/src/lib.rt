//! Room: program. Timelines: what ran when, as a picture (SVG 1.1). Also the time of a dump, the steps of causes, and texts in XML 1.0.
//! The memory of a timeline goes with the length of the run. No contracts: what it writes is tested.
#![tactic(auto)]

mod causes;
mod clock;
mod columns;
mod lane;
mod picture;
mod timeline;
mod xml;

pub use causes::{Causes, Turn};
pub use clock::Clock;
pub use picture::out_of_memory;
pub use timeline::Timeline;
pub use xml::{put_attribute, put_escaped};
