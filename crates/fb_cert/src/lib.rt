//! Room: checker. Certificates: read from a text, made row by row, looked up and printed.
//! `parse_cert` answers exactly the certificate that the text spells, and `print_cert` one text that spells it (`spelled_once`, `printed_spells`).
#![tactic(auto)]

mod certificate;
mod kind;
mod law;
mod lists;
mod printing;
mod reading;
mod row;
mod sayable;

pub use certificate::{Amount, Certificate};
pub use law::{printed_spells, spelled_once};
pub use printing::print_cert;
pub use reading::parse_cert;
pub use row::Row;
