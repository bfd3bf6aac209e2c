//! Ranges of types.

ghost use Rattle.std.specs.Prelude.{◌≡◌};
ghost use Rattle.fb_ranges_intervals.specs.Views.{span_of};
ghost use Rattle.fb_check_ranges.specs.Rows.{numbers_in};

use fb_ranges_intervals::{Interval, whole};
use fb_words::ElemType;

/// The numbers of the type of a variable, and all numbers of LINT where there is none.
pub(crate) fn numbers(of: Option<ElemType>) -> Interval
    ensures { span_of result ≡ numbers_in of }
{
    match of {
        Some(of) => whole(of),
        None => whole(ElemType::Lint),
    }
}
