//! Element types.

ghost use Rattle.std.specs.Prelude.{◌≡◌, ◌&&◌, int_le};
ghost use Rattle.fb_model.specs.Spelling.{is_integer};
ghost use Rattle.fb_model.specs.Values.{lowest, highest};
ghost use Rattle.fb_model.specs.TextTyping.{is_number, widens};

use fb_words::ElemType;

/// Whether a type is one of the integer types.
pub fn is_integer(of: ElemType) -> bool
    ensures { result ≡ is_integer of }
{
    !matches!(of, ElemType::Bool | ElemType::Time)
}

/// Whether a type is an integer type or TIME.
pub fn is_number(of: ElemType) -> bool
    ensures { result ≡ is_number of }
{
    of != ElemType::Bool
}

// Whether a type has all values of another.
fn holds_all(of: ElemType, to: ElemType) -> bool
    ensures { result ≡ (int_le (lowest to) (lowest of) && int_le (highest of) (highest to)) }
{
    to.lowest() <= of.lowest() && of.highest() <= to.highest()
}

/// Whether a type widens to another, or is it.
pub fn widens(from: ElemType, to: ElemType) -> bool
    ensures { result ≡ widens from to }
{
    if from == to {
        return true;
    }
    if !is_integer(from) {
        return false;
    }
    if !is_integer(to) {
        return false;
    }
    holds_all(from, to)
}
