//! Guards that are clear.

ghost use Rattle.fb_model.specs.Clear.{guard_range};
ghost use Rattle.st_types.specs.Views.{term_of};
ghost use Rattle.fb_ranges.specs.Answers.{IsGuard};
ghost use Rattle.fb_ranges.specs.Views.{spans_of};

use crate::expression::range;
use crate::fault::RangeFault;
use crate::rows::Ranges;
use st_types::TypedExpr;
use std::alloc::Global;

/// Whether a guard is clear under the ranges of the variables: it has a value whatever numbers they have there.
///
/// Refused with `Traps` where a divisor may be zero or an index out of bounds, and with nothing else.
pub fn check_guard(_alloc: Global, guard: &TypedExpr, rows: &Ranges) -> Result<(), RangeFault>
    ensures { IsGuard result (guard_range (spans_of rows.now) (term_of guard.now)) }
{
    if range(guard, rows).is_clear {
        return Ok(());
    }
    Err(RangeFault::Traps)
}
