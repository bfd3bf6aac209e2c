//! Room: book. Why texts, declarations and certificates are refused, each with its number and its place.
//! What each of them says of a text is defined in `fb_model`; here stand their codes, and how they are printed.
#![tactic(auto)]

mod certificate;
mod memory;
mod no_bound;
mod place;
mod refusal;
mod row;
mod shallow;
mod shortfall;
mod statement;
mod text;
mod typing;
mod unclear;

pub use certificate::CertFault;
pub use memory::OutOfMemory;
pub use no_bound::NoBound;
pub use place::Place;
pub use refusal::Refusal;
pub use row::RowFault;
pub use shallow::Shallow;
pub use shortfall::Shortfall;
pub use statement::TypingFault;
pub use text::TextFault;
pub use typing::TypeFault;
pub use unclear::Unclear;
