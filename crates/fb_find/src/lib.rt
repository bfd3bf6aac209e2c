//! Room: finder. The least certificate of a system, or why there is none: "why is it 43, 44 or 19".
//! What `find` answers fits, and no certificate with these ranges that fits has a smaller number, a depth being at least 1 (`IsFound`). 43 comes only with a closed
//! walk, so that none fits; 44, and 19 for a number, speak of these ranges: with others a certificate may fit. `find_within` keeps rows RANGE
//! that are given, and what it refuses is so under these.
#![tactic(auto)]

mod clear;
mod crowded;
mod finding;
mod least;
mod network;
mod ordering;
mod solving;
mod stand;
mod table;
mod within;

pub use finding::find;
pub use ordering::order;
pub use solving::column;
pub use stand::rows_stand;
pub use within::find_within;
