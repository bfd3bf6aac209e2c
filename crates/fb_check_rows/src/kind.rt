//! The rows of a certificate by their kinds.

ghost use Rattle.std.specs.Prelude.{◌≡◌, length, slice_get};
ghost use Rattle.std.specs.Option.{option_map};
ghost use Rattle.fb_cert.specs.Views.{rows_of};
ghost use Rattle.fb_model.specs.Names.{is_in};
ghost use Rattle.fb_check_rows.specs.Texts.{paths_of};

use fb_cert::Certificate;

/// A kind of rows that each system must have.
#[derive(Clone, Copy)]
pub enum RowKind {
    Charge,
    Weight,
    Range,
    Depth,
}

/// The rows of a certificate that go by a path.
#[derive(Clone, Copy)]
pub(crate) enum PathRows {
    Charges,
    Weights,
    Ranges,
    Depths,
    Fars,
    FarStates,
}

/// Whether the certificate has a row of this path.
pub(crate) fn has_row(certificate: &Certificate, kind: PathRows, path: &str) -> bool
    ensures { result ≡ is_in path.now (paths_of kind (rows_of certificate.now)) }
{
    match kind {
        PathRows::Charges => certificate.charge(path).is_some(),
        PathRows::Weights => certificate.weight(path).is_some(),
        PathRows::Ranges => certificate.range(path).is_some(),
        PathRows::Depths => certificate.depth(path).is_some(),
        PathRows::Fars => certificate.far(path).is_some(),
        PathRows::FarStates => certificate.far_state(path).is_some(),
    }
}

/// How many rows of the kind the certificate has.
pub(crate) fn row_count(certificate: &Certificate, kind: PathRows) -> usize
    ensures { result ≡ length (paths_of kind (rows_of certificate.now)) }
{
    match kind {
        PathRows::Charges => certificate.charge_count(),
        PathRows::Weights => certificate.weight_count(),
        PathRows::Ranges => certificate.range_count(),
        PathRows::Depths => certificate.depth_count(),
        PathRows::Fars => certificate.far_count(),
        PathRows::FarStates => certificate.far_state_count(),
    }
}

/// The path of the row of the kind at an index in text order.
pub(crate) fn path_at(certificate: &Certificate, kind: PathRows, index: usize) -> Option<&str>
    ensures { option_map (λ p. p.now) result ≡ slice_get (paths_of kind (rows_of certificate.now)) index }
{
    match kind {
        PathRows::Charges => Some(certificate.charge_at(index)?.0),
        PathRows::Weights => Some(certificate.weight_at(index)?.0),
        PathRows::Ranges => Some(certificate.range_at(index)?.0),
        PathRows::Depths => Some(certificate.depth_at(index)?.0),
        PathRows::Fars => Some(certificate.far_at(index)?.0),
        PathRows::FarStates => Some(certificate.far_state_at(index)?.0),
    }
}
