//! Room: program. Records of a device: what came to it, a line a turn, so that its turns can be taken again.
//! A record spells exactly what came unless it is lost, a line is read exactly as it is spelled, and what is spelled is read back as it was
//! (`records_read_back`).
#![tactic(auto)]

mod entry;
mod head;
mod law;
mod recorder;

pub use entry::{Entry, read_entry};
pub use head::{Head, is_digest, put_head, read_head};
pub use law::records_read_back;
pub use recorder::Recorder;
