//! Room: program. What `--json` prints: a verdict for programs, as one JSON object, of the same values as the pages for people.
//! No contracts: what it prints is tested. `docs/JSON.md` says what stands in it, and `docs/fbr.schema.json` is its schema.
#![tactic(auto)]

mod bounds;
mod ends;
mod finding;
mod notes;
mod places;
mod report;
mod walk;

pub use report::{Report, SCHEMA, memory_parts, number_text};
