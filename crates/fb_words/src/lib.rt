//! Room: book. The closed lists that texts and definitions share: signs, reserved words, element types, wire formats, ends of connections and operators.
//! Contracts: how each sign and word is written, which word names which type, and what the numbers of a type are (`lowest`, `highest`, `fits`, `wrap`).
#![tactic(auto)]

mod elem_type;
mod end;
mod format;
mod mark;
mod number;
mod operator;

pub use elem_type::{ElemType, TYPES};
pub use end::{Carried, Way};
pub use format::Format;
pub use mark::{Mark, SIGNS, WORDS};
pub use number::NumberKind;
pub use operator::{Operation, Operator};
