//! Values that go from block to block: IEC 61499-1 edition 2, 4.5.3 and 5.2.2.

ghost use Rattle.std.specs.Prelude.{◌≡◌, [], ◌∷◌, map, string_bytes};
ghost use Rattle.std.specs.List.{AllByRecursion};
ghost use Rattle.fb_model.specs.Store.{where_in};
ghost use Rattle.st_exec.specs.Cells.{values_of, forms_of};
ghost use Rattle.fb_chart.specs.Views.{given_names};
ghost use Rattle.fb_chart.specs.Sampling.{CanTake, CanGive, sampled_by};

use crate::table::{Give, Source, Take};
use st_exec::Store;

// A data input takes the value of its source.
fn sample_one(taken: &Take, issued: &[Store], own: &mut Store)
    requires { CanTake issued.now (forms_of own.old) taken.now }
    ensures values { values_of own.new ≡ sampled_by issued.now (forms_of own.old) (taken.now ∷ []) (values_of own.old) }
    ensures forms { forms_of own.new ≡ forms_of own.old }
{
    match &taken.source {
        Source::Output(block, _, slot) => {
            own.copy(taken.slot, &issued[*block as usize], *slot, taken.count);
        }
        Source::Number(number) => own.fill(taken.slot, taken.count, *number),
    }
}

/// At a dispatch each data input that is WITH the event takes the issued value of its source, in order. `issued` has the issued outputs of
/// all blocks of the device by their numbers.
pub fn sample(takes: &[Take], issued: &[Store], own: &mut Store)
    requires { AllByRecursion (CanTake issued.now (forms_of own.old)) takes.now }
    ensures values { values_of own.new ≡ sampled_by issued.now (forms_of own.old) takes.now (values_of own.old) }
    ensures forms { forms_of own.new ≡ forms_of own.old }
{
    for taken in takes {
        sample_one(taken, issued, own);
    }
}

/// At an emission each data output that is WITH the event output is issued.
pub(crate) fn issue(gives: &[Give], own: &Store, issued: &mut Store)
    requires { AllByRecursion (CanGive (forms_of own.now) (forms_of issued.old)) gives.now }
    ensures values { values_of issued.new ≡ where_in (given_names gives.now) (values_of own.now) (values_of issued.old) }
    ensures forms { forms_of issued.new ≡ forms_of issued.old }
{
    for given in gives {
        issued.copy(given.issued, own, given.own, given.count);
    }
}
