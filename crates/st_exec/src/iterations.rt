//! The iterations of a FOR and the labels of a CASE: IEC 61131-3 edition 3, 7.3.3.

ghost use Rattle.std.specs.Prelude.{◌≡◌, ◌<◌, ◌^◌, ◌+ℤ◌, ◌*ℤ◌, pos, int_le, ◌&&◌};
ghost use Rattle.fb_model.specs.Language.{labelled, iteration_count};

/// The number in a iteration of a FOR. The first iteration is 0.
pub(crate) fn taken(first: i64, last: i64, step: i64, iteration: u64) -> i64
    requires { iteration < iteration_count first last step }
    ensures { result ≡ first +ℤ pos iteration *ℤ step }
{
    (i128::from(first) + i128::from(iteration) * i128::from(step)) as i64
}

/// How many iterations a FOR has.
pub(crate) fn iterations_of(first: i64, last: i64, step: i64) -> u64
    requires { iteration_count first last step < 2 ^ 64 }
    ensures { result ≡ iteration_count first last step }
{
    let is_past = if step > 0 {
        last < first
    } else {
        step == 0 || first < last
    };
    if is_past {
        return 0;
    }
    last.abs_diff(first) / step.unsigned_abs() + 1
}

fn is_between(low: i64, high: i64, number: i64) -> bool
    ensures { result ≡ (int_le low number && int_le number high) }
{
    low <= number && number <= high
}

/// Whether a label has the number.
pub(crate) fn is_labelled(labels: &[(i64, i64)], number: i64) -> bool
    ensures { result ≡ labelled labels.now number }
{
    for label in labels {
        if is_between(label.0, label.1, number) {
            return true;
        }
    }
    false
}
