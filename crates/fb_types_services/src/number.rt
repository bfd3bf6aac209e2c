//! Numbers that parameters give.

ghost use Rattle.std.specs.Prelude.{◌≡◌, ℕ, pos, IfSome, IfNone};
ghost use Rattle.fb_model.specs.Typing.{IsWhole};
ghost use Rattle.fb_model.specs.Values.{highest, signed};
ghost use Rattle.fb_tree.specs.Algorithms.{literal_of};

use fb_tree::Literal;
use fb_words::ElemType;

// The greatest whole number of a type.
#[tactic(auto, using(fb_words::proofs::Types::bounded))]
fn highest(of: ElemType) -> u64
    ensures { pos result ≡ highest of }
{
    of.highest().unsigned_abs()
}

/// The whole number that a literal is, where it is none below 0.
pub fn whole(value: Literal) -> Option<u64>
    ensures is { IfSome result (λ n. IsWhole (literal_of value) (pos n)) }
    ensures none { IfNone result ((n : ℕ) → IsWhole (literal_of value) (pos n) → ⊥) }
{
    match value {
        Literal::Whole(negative, size) => unsigned(negative, size),
        Literal::Typed(of, negative, size) => {
            if size > highest(of) {
                None
            } else {
                unsigned(negative, size)
            }
        }
        Literal::Duration(_, _) | Literal::Truth(_) => None,
    }
}

// A number by its sign and size, where it is not below 0.
fn unsigned(negative: bool, size: u64) -> Option<u64>
    ensures is { IfSome result (λ n. (n ≡ size) × (signed negative size ≡ pos n)) }
    ensures none { IfNone result ((n : ℕ) → signed negative size ≡ pos n → ⊥) }
{
    if negative && size > 0 {
        None
    } else {
        Some(size)
    }
}
