//! Room: language. Texts of the whole language to source trees.
//! `parse` answers exactly the tree that the text spells; refused with Syntax it is spelled by none. No text is two trees (`one_source`).
//! That every token before the offset of a Syntax can stand where it does, is a law of `fb_text_laws`.
#![tactic(auto)]

mod block;
mod chart;
mod constant;
mod event;
mod items;
mod network;
mod source;
mod state;
mod system;
mod text;
mod variable;
mod word;

pub use items::{Item, closed, many, section, separated};
pub use source::Source;
pub use text::{one_source, one_tree, parse, parse_tokens};
