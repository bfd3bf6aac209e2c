//! Room: program. The files that a command reads and writes, what is at fault, and the line that tells it.
//! A file is read once; one that is written changes alone, and keeps what it held if writing fails. What a file of the system holds is not said.
#![tactic(auto)]

mod disk;
mod fault;
mod outcome;
mod placed;
mod reading;
mod sources;
mod stream;
mod writing;

pub use disk::{Disk, Kept};
pub use fault::Fault;
pub use outcome::{print_outcome, print_text};
pub use placed::{Placed, print_placed};
pub use reading::{FileText, Held, LIMIT, read_app, read_file, read_whole};
pub use sources::{Keep, ReadFault, Sources};
pub use stream::Stream;
pub use writing::{into_another, put_text, write_into};
