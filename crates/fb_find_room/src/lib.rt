//! Room: finder. Certificates whose queues take bursts: room for so many arrivals of each kind at once.
//! `with_room` gives rows `DEPTH` other numbers and leaves all other rows (`roomy_rows`); what fits a system still fits it then (`roomy_certificates_fit`).
#![tactic(auto)]

mod arrivals;
mod laws;
mod room;

pub use laws::roomy_certificates_fit;
pub use room::with_room;
