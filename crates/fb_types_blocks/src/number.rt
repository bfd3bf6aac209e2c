//! Numbers of constants.

ghost use Rattle.std.specs.Prelude.{◌≡◌, ℤ, [], Ok, IfOk, IfErr};
ghost use Rattle.fb_model.specs.StructuredText.{literal};
ghost use Rattle.fb_model.specs.TypedText.{constant};
ghost use Rattle.fb_model.specs.Trees.{Typed, Truth};
ghost use Rattle.fb_model.specs.BlockTyping.{IsGiven};
ghost use Rattle.fb_tree.specs.Algorithms.{constant_of};
ghost use Rattle.st_types.specs.Elaborating.{asked};
ghost use Rattle.st_types.specs.Elaborating as st;
ghost use Rattle.st_types.specs.Commanding.{number_of};
ghost use Rattle.fb_words.specs.declared.elem_type.ElemType.TheVariants as t;
ghost use Rattle.fb_model.specs.BlockFaults.{IsMisgiven};
ghost use Rattle.fb_types_blocks.specs.Answers.{Gives};

use fb_faults::TypeFault;
use fb_tree::{Constant, Literal};
use fb_words::ElemType;
use st_types::{signed, widens};

// A number that has to fit a type.
fn fitting(of: ElemType, number: i128, at: usize) -> Result<i64, TypeFault>
    ensures { Gives constant result (st.constant_of of number at) }
{
    if !of.fits(number) {
        return Err(TypeFault::BadLiteral(at));
    }
    Ok(number as i64)
}

// A typed number where a type is asked for at a place.
fn widened(
    of: ElemType,
    at: usize,
    own: ElemType,
    negative: bool,
    size: u64,
    place: usize,
) -> Result<i64, TypeFault>
    ensures { Gives constant result (asked [] of at (literal (record { value = Typed own negative size; at = place }))) }
{
    let number = fitting(own, signed(negative, size), place)?;
    if !widens(own, of) {
        return Err(TypeFault::TypeMismatch(at));
    }
    Ok(number)
}

fn truth(of: ElemType, at: usize, value: bool, place: usize) -> Result<i64, TypeFault>
    ensures { Gives constant result (asked [] of at (literal (record { value = Truth value; at = place }))) }
{
    if !widens(ElemType::Bool, of) {
        return Err(TypeFault::TypeMismatch(at));
    }
    Ok(i64::from(value))
}

// The number of a constant where a type is asked for at a place.
fn given(of: ElemType, at: usize, value: &Constant) -> Result<i64, TypeFault>
    ensures { Gives constant result (asked [] of at (literal (constant_of value.now))) }
{
    let place = value.at;
    match value.value {
        Literal::Whole(negative, size) => fitting(of, signed(negative, size), place),
        Literal::Typed(own, negative, size) => { widened(of, at, own, negative, size, place) }
        Literal::Duration(negative, size) => {
            widened(of, at, ElemType::Time, negative, size, place)
        }
        Literal::Truth(value) => truth(of, at, value, place),
    }
}

/// A LINT number without a type.
pub(crate) fn bound(value: &Constant) -> Result<i64, TypeFault>
    ensures { Gives (λ n. n) result (number_of t.Lint (constant_of value.now)) }
{
    match value.value {
        Literal::Whole(negative, size) => {
            let number = signed(negative, size);
            if !ElemType::Lint.fits(number) {
                return Err(TypeFault::BadLiteral(value.at));
            }
            Ok(number as i64)
        }
        _ => Err(TypeFault::BadLiteral(value.at)),
    }
}

/// The number of a constant where a type is asked for at a place.
///
/// Refused with `TypeMismatch` at the place where the literal's type does not widen to it, and with `BadLiteral` at a literal that does not
/// fit its own type, or, where it has none, the one asked for.
pub fn constant(of: ElemType, at: usize, value: &Constant) -> Result<i64, TypeFault>
    ensures found { IfOk result (IsGiven of (constant_of value.now)) }
    ensures only { (n : ℤ) → IsGiven of (constant_of value.now) n → result ≡ Ok n }
    ensures refused { IfErr result (IsMisgiven of at (constant_of value.now)) }
{
    given(of, at, value)
}
