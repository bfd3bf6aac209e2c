//! Room: checker. A system with a certificate that fits it, by an invariant of its type, and the rows that are asked of it by their paths.
//! Whoever makes a `Verified` shows that the certificate fits. `devices_hold`: where a certificate fits, each device holds what the laws on runs ask for.
#![tactic(auto)]

mod law;
mod verified;

pub use law::devices_hold;
pub use verified::Verified;
