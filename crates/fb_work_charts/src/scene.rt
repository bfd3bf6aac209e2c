//! What is reckoned with at a leaf.

use fb_flat::Output;
use fb_prices::Prices;

/// What is reckoned with at a leaf: the prices, what its algorithms cost with their calls, in their order, and where its outputs lead.
#[derive(Clone, Copy)]
pub struct Scene<'a> {
    pub prices: &'a Prices,
    pub algorithms: &'a [u64],
    pub outputs: &'a [Output],
}
