//! Room: language. Readers over tokens that all grammars share: one token, a name, a type, lists, and optional sections.
//! Each gives what its function on lists gives, or stops with exactly as many tokens left. Laws: what is read is in the grammar, and what is in it is read.
#![tactic(auto)]

mod stop;
mod token;

pub use stop::Stop;
pub use token::{
    begins_name, begins_number, end_of, expect, next_is, next_offset, read_name, read_type,
};
