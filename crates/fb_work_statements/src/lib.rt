//! Room: finder. What expressions cost, and what algorithms cost at most whose variables lie in their rows: "the price of this algorithm".
//! `expression_work` and `algorithm_work` tell the numbers of the definitions, up to the first that stands for all greater ones.
#![tactic(auto)]

mod algorithm;
mod expression;
mod sums;

pub use algorithm::algorithm_work;
pub use expression::expression_work;
pub use sums::{MANY, added, times};
