//! Room: program. What a device answers, as JSON objects: to a line of a script, or in a turn that is taken again.
//! No contracts: what it writes is tested. `docs/JSON.md` says what stands in it, and `docs/fbr.schema.json` is its schema.
#![tactic(auto)]

mod answers;

pub use answers::answer_object;
