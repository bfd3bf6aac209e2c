//! The rows of a certificate against those that a system must have.

ghost use Rattle.std.specs.Prelude.{◌≡◌, [], IfErr, OnOk};
ghost use Rattle.std.specs.List.{AllByRecursion};
ghost use Rattle.fb_model.specs.System.{System};
ghost use Rattle.fb_model.specs.Certificates.{AllRows, with_repeats};
ghost use Rattle.fb_model_laws.specs.Words.{IsWordyDevice};
ghost use Rattle.fb_types_blocks.specs.Views.{names_of};
ghost use Rattle.fb_flat.specs.Tables.{AreDevices};
ghost use Rattle.fb_cert.specs.Views.{rows_of, certificate_of};
ghost use Rattle.fb_check_rows.specs.Members.{AreAmong, HasSame};
ghost use Rattle.fb_check_rows.specs.Texts.{paths_of, texts_of, HaveSameRows, HaveOtherRows, HaveSameOwn, HaveSameFar};
ghost use Rattle.fb_check_rows.specs.Faults.{IsDifference, IsRowFault};

use crate::channel::channels_match;
use crate::kind::{PathRows, RowKind, has_row, path_at, row_count};
use crate::requirement::required;
use fb_cert::Certificate;
use fb_faults::RowFault;
use fb_flat::Flat;
use indexmap::IndexSet;
use std::alloc::Global;

// Each of these rows stands in the certificate.
fn none_missing(
    kind: PathRows,
    rows: &IndexSet<String>,
    certificate: &Certificate,
) -> Result<(), RowFault>
    ensures there { OnOk result (AreAmong (names_of rows.now) (paths_of kind (rows_of certificate.now))) }
    ensures refused { IfErr result (IsDifference (names_of rows.now) (paths_of kind (rows_of certificate.now))) }
{
    for index in 0..rows.len() {
        let Some(row) = rows.get_index(index) else {
            return Ok(());
        };
        if !has_row(certificate, kind, row.as_str()) {
            return Err(RowFault::Missing(row.clone()?));
        }
    }
    Ok(())
}

// Each row of the certificate is one of these.
fn none_unknown(
    alloc: Global,
    kind: PathRows,
    rows: &IndexSet<String>,
    certificate: &Certificate,
) -> Result<(), RowFault>
    ensures there { OnOk result (AreAmong (paths_of kind (rows_of certificate.now)) (names_of rows.now)) }
    ensures refused { IfErr result (IsDifference (names_of rows.now) (paths_of kind (rows_of certificate.now))) }
{
    for index in 0..row_count(certificate, kind) {
        let Some(path) = path_at(certificate, kind, index) else {
            return Ok(());
        };
        if !rows.contains(path) {
            return Err(RowFault::Unknown(String::from_str(alloc, path)?));
        }
    }
    Ok(())
}

// These rows of the certificate are those of a kind that the system must have.
fn kind_matches(
    alloc: Global,
    kind: RowKind,
    given: PathRows,
    flat: &Flat,
    certificate: &Certificate,
) -> Result<(), RowFault>
    ensures same { OnOk result (HasSame (paths_of given (rows_of certificate.now)) (texts_of kind flat.now.devices.items)) }
    ensures refused { IfErr result (IsDifference (texts_of kind flat.now.devices.items) (paths_of given (rows_of certificate.now))) }
{
    let rows = required(alloc, kind, flat)?;
    none_missing(given, &rows, certificate)?;
    none_unknown(alloc, given, &rows, certificate)
}

// The certificate has no such rows.
fn none_given(alloc: Global, given: PathRows, certificate: &Certificate) -> Result<(), RowFault>
    ensures same { OnOk result (HasSame (paths_of given (rows_of certificate.now)) []) }
    ensures refused { IfErr result (IsDifference [] (paths_of given (rows_of certificate.now))) }
{
    match path_at(certificate, given, 0) {
        Some(path) => Err(RowFault::Unknown(String::from_str(alloc, path)?)),
        None => Ok(()),
    }
}

// The same where there is a row REPEATS; else there are no such rows.
fn far_matches(
    alloc: Global,
    kind: RowKind,
    given: PathRows,
    flat: &Flat,
    certificate: &Certificate,
) -> Result<(), RowFault>
    ensures same { OnOk result (HasSame (paths_of given (rows_of certificate.now)) (with_repeats (rows_of certificate.now).repeats (texts_of kind flat.now.devices.items))) }
    ensures refused { IfErr result (IsDifference (with_repeats (rows_of certificate.now).repeats (texts_of kind flat.now.devices.items)) (paths_of given (rows_of certificate.now))) }
{
    match certificate.repeats() {
        Some(_) => kind_matches(alloc, kind, given, flat, certificate),
        None => none_given(alloc, given, certificate),
    }
}

// The rows without the network are the same.
fn own_match(alloc: Global, flat: &Flat, certificate: &Certificate) -> Result<(), RowFault>
    ensures same { OnOk result (HaveSameOwn flat.now.devices.items (rows_of certificate.now)) }
    ensures refused { IfErr result (HaveOtherRows flat.now.devices.items (rows_of certificate.now)) }
{
    kind_matches(alloc, RowKind::Charge, PathRows::Charges, flat, certificate)?;
    kind_matches(alloc, RowKind::Weight, PathRows::Weights, flat, certificate)?;
    kind_matches(alloc, RowKind::Range, PathRows::Ranges, flat, certificate)?;
    kind_matches(alloc, RowKind::Depth, PathRows::Depths, flat, certificate)
}

// Those of the network are the same: FAR where WEIGHT, and FARSTATE where CHARGE.
fn network_matches(alloc: Global, flat: &Flat, certificate: &Certificate) -> Result<(), RowFault>
    ensures same { OnOk result (HaveSameFar flat.now.devices.items (rows_of certificate.now)) }
    ensures refused { IfErr result (HaveOtherRows flat.now.devices.items (rows_of certificate.now)) }
{
    far_matches(alloc, RowKind::Weight, PathRows::Fars, flat, certificate)?;
    far_matches(
        alloc,
        RowKind::Charge,
        PathRows::FarStates,
        flat,
        certificate,
    )?;
    channels_match(alloc, flat, certificate)
}

// The rows are the same, kind by kind.
fn compare(alloc: Global, flat: &Flat, certificate: &Certificate) -> Result<(), RowFault>
    ensures same { OnOk result (HaveSameRows flat.now.devices.items (rows_of certificate.now)) }
    ensures refused { IfErr result (HaveOtherRows flat.now.devices.items (rows_of certificate.now)) }
{
    own_match(alloc, flat, certificate)?;
    network_matches(alloc, flat, certificate)
}

/// The certificate has each row that the system must have, and no other.
pub fn rows_match(alloc: Global, flat: &Flat, certificate: &Certificate) -> Result<(), RowFault>
    ensures rows { (s : System) → AreDevices flat.now.devices.items s.devices → AllByRecursion IsWordyDevice s.devices → OnOk result (AllRows s (certificate_of certificate.now)) }
    ensures refused { (s : System) → AreDevices flat.now.devices.items s.devices → AllByRecursion IsWordyDevice s.devices → IfErr result (IsRowFault s (certificate_of certificate.now)) }
{
    certificate.stands_in_text();
    compare(alloc, flat, certificate)
}
