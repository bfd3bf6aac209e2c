//! Room: finder. What places ask of each other in a whole system, and whether places that are shown are a closed walk of it.
//! The inequalities are exactly the definition's demands, by numbers. `check_walk` is true exactly of closed walks, and then no certificate fits.
#![tactic(auto)]

mod channel;
mod channels;
mod chart;
mod closing;
mod crossings;
mod grouping;
mod known;
mod leaf;
mod leaves;
mod nodes;
mod numbered;
mod plain;
mod priced;
mod prices;
mod right;
mod scene;
mod service;
mod walk_numbers;

pub use channel::add_channels;
pub use closing::check_walk;
pub use grouping::group;
pub use leaf::{Tariff, add_leaf};
pub use nodes::numbering;
pub use numbered::Numbering;
pub use plain::{network_rights, plain_rights};
pub use priced::{far_rights, priced_rights};
pub use right::Right;
