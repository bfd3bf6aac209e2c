//! Whether rows RANGE of a certificate stand in another.

ghost use Rattle.std.specs.Prelude.{◌≡◌, ◌↔◌, true, IfErr, OnOk};
ghost use Rattle.fb_cert.specs.Views.{rows_of};
ghost use Rattle.fb_ranges_intervals.specs.Views.{span_of};
ghost use Rattle.fb_find.specs.Bounds.{IsStrayFault, RowsStand, Stands};

use fb_cert::Certificate;
use fb_faults::NoBound;
use fb_ranges_intervals::Interval;
use std::alloc::Global;

// Whether a row RANGE with this path and this interval does.
fn row_stands(certificate: &Certificate, path: &str, interval: Interval) -> bool
    ensures { result ≡ true ↔ Stands (rows_of certificate.now) (path.now, span_of interval) }
{
    match certificate.range(path) {
        Some(found) => found.low == interval.low && found.high == interval.high,
        None => false,
    }
}

/// Whether each row RANGE of the first certificate stands in the second.
///
/// Refused with `NoRange` at one that does not.
pub fn rows_stand(
    alloc: Global,
    rows: &Certificate,
    certificate: &Certificate,
) -> Result<(), NoBound>
    ensures stand { OnOk result (RowsStand (rows_of rows.now) (rows_of certificate.now)) }
    ensures refused { IfErr result (IsStrayFault (rows_of rows.now) (rows_of certificate.now)) }
{
    for index in 0..rows.range_count() {
        let Some((path, interval)) = rows.range_at(index) else {
            return Ok(());
        };
        if !row_stands(certificate, path, interval) {
            return Err(NoBound::NoRange(String::from_str(alloc, path)?));
        }
    }
    Ok(())
}
