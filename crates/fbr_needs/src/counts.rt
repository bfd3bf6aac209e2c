//! How many rows a certificate has too many, and how many it lacks.

use fb_cert::Certificate;
use fb_check_rows::{RowKind, required};
use fb_flat::Flat;
use std::alloc::{AllocError, Global};

// Whether a certificate has a row of a kind and a path.
fn has(certificate: &Certificate, kind: RowKind, path: &str) -> bool {
    match kind {
        RowKind::Charge => certificate.charge(path).is_some(),
        RowKind::Weight => certificate.weight(path).is_some(),
        RowKind::Range => certificate.range(path).is_some(),
        RowKind::Depth => certificate.depth(path).is_some(),
    }
}

// How many rows of a kind a certificate has.
fn count(certificate: &Certificate, kind: RowKind) -> usize {
    match kind {
        RowKind::Charge => certificate.charge_count(),
        RowKind::Weight => certificate.weight_count(),
        RowKind::Range => certificate.range_count(),
        RowKind::Depth => certificate.depth_count(),
    }
}

/// How many rows are missing, and how many are too many.
#[derive(Clone, Copy)]
pub struct Counts {
    pub missing: usize,
    pub many: usize,
}

/// How many rows are missing and how many are too many, where these are more than one.
pub fn counts_of(
    alloc: Global,
    flat: &Flat,
    certificate: &Certificate,
) -> Result<Option<Counts>, AllocError> {
    let mut missing: usize = 0;
    let mut many: usize = 0;
    for kind in [
        RowKind::Charge,
        RowKind::Weight,
        RowKind::Range,
        RowKind::Depth,
    ] {
        // Rows are wanting for want of memory alone.
        let rows = required(alloc, kind, flat).map_err(|_| AllocError)?;
        let mut met: usize = 0;
        for path in &rows {
            if has(certificate, kind, path.as_str()) {
                met = met.saturating_add(1);
            }
        }
        missing = missing.saturating_add(rows.len().saturating_sub(met));
        many = many.saturating_add(count(certificate, kind).saturating_sub(met));
    }
    if missing.saturating_add(many) < 2 {
        return Ok(None);
    }
    Ok(Some(Counts { missing, many }))
}
