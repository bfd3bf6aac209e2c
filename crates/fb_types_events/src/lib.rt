//! Room: language. The event blocks that are declared beforehand: their text, and the typing of texts with them.
//! `event_blocks` reads that text, which declares exactly the definitions' seven. `resolve` accepts exactly the sources that are well typed with them.
#![tactic(auto)]

mod library;
mod resolving;

pub use library::{EVENT_BLOCKS, event_blocks};
pub use resolving::resolve;
