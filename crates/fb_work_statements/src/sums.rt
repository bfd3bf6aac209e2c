//! Numbers that are told apart up to 1,000,000,000,000.

ghost use Rattle.std.specs.Prelude.{◌≡◌, ◌+◌, ◌*◌};
ghost use Rattle.fb_find_laws.specs.Nodes.{capped};

/// The first number that stands for all greater ones.
pub const MANY: u64 = 1_000_000_000_001;

/// A sum, as far as numbers are told apart.
pub fn added(a: u64, b: u64) -> u64
    ensures { result ≡ capped (a + b) }
{
    a.saturating_add(b).min(MANY)
}

/// So many times a number, as far as numbers are told apart.
pub fn times(count: u128, each: u64) -> u64
    ensures { result ≡ capped (count * each) }
{
    let most = u128::from(MANY);
    let product = count.min(most) * u128::from(each.min(MANY));
    product.min(most) as u64
}
