//! Lists of prices.

ghost use Rattle.std.specs.Prelude.{◌≡◌};
ghost use Rattle.fb_prices.specs.Words.{number_of, prices_of};

use crate::primitive::Primitive;

/// A price for each primitive, in the order of their numbers: any unit of time, or 1 each.
#[derive(Drop)]
pub struct Prices {
    pub numbers: Vec<u64>,
}

impl Prices {
    /// The price of a primitive, 0 where the list is too short to have one.
    pub fn price(&self, primitive: Primitive) -> u64
        ensures { result ≡ prices_of self.now primitive }
    {
        match self.numbers.get(primitive.number()) {
            Some(price) => *price,
            None => 0,
        }
    }
}
