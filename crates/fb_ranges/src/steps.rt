//! Numbers of steps, which are told apart up to 1,000,000,000,000.

ghost use Rattle.std.specs.Prelude.{◌≡◌, ◌+◌, ◌*◌, ◌<◌, ℕ, None, Some, if◌then◌else◌, max, nat_le};
ghost use Rattle.fb_ranges.specs.Steps.{counted};

/// The first number that stands for all greater ones too.
const MANY: u64 = 1_000_000_000_001;

/// The number, unless it is one that stands for all greater ones.
pub(crate) fn told(steps: u64) -> Option<u64>
    ensures { (n : ℕ) → steps ≡ counted n → result ≡ (if nat_le n 1000000000000 then Some n else None) }
{
    if steps < MANY { Some(steps) } else { None }
}

/// One sum.
pub(crate) fn added(a: u64, b: u64) -> u64
    ensures { result ≡ counted (a + b) }
{
    a.saturating_add(b).min(MANY)
}

/// The steps of the longer way.
pub(crate) fn longest(a: u64, b: u64) -> u64
    ensures { result ≡ max a b }
{
    a.max(b)
}

/// The steps of a FOR, by its iterations and the steps of one iteration's body.
pub(crate) fn of_iterations(iterations: u128, body: u64) -> u64
    requires { 0 < iterations }
    ensures { result ≡ counted (1 + iterations * (1 + body)) }
{
    let most = u128::from(MANY);
    let steps = 1 + iterations.min(most) * (1 + u128::from(body));
    steps.min(most) as u64
}
