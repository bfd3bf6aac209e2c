//! What stands on a side of a relation.

ghost use Rattle.std.specs.Prelude.{◌≡◌, string_bytes};
ghost use Rattle.std.specs.Option.{option_map};
ghost use Rattle.st_types.specs.Views.{term_of};
ghost use Rattle.fb_ranges.specs.Narrowing.{number_in, variable_in};

use st_types::{TypedExpr, VariableName};

/// The number that an expression is, if it is one.
pub(crate) fn number(expr: &TypedExpr) -> Option<i64>
    ensures { result ≡ number_in (term_of expr.now) }
{
    match expr {
        TypedExpr::Constant(number) => Some(*number),
        TypedExpr::Chain(first, links) => {
            if !links.is_empty() {
                return None;
            }
            number(first)
        }
        TypedExpr::Read(_) | TypedExpr::Element(_, _, _, _) | TypedExpr::Unary(_, _, _) => None,
    }
}

/// The variable that an expression is, if it is one and no element of an array.
pub(crate) fn variable(expr: &TypedExpr) -> Option<&VariableName>
    ensures { option_map (λ x. string_bytes x.now.name) result ≡ variable_in (term_of expr.now) }
{
    match expr {
        TypedExpr::Read(name) => Some(name),
        TypedExpr::Chain(first, links) => {
            if !links.is_empty() {
                return None;
            }
            variable(first)
        }
        TypedExpr::Constant(_) | TypedExpr::Element(_, _, _, _) | TypedExpr::Unary(_, _, _) => None,
    }
}
