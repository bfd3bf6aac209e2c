//! The rows RANGE of a certificate, under which all is clear.

ghost use Rattle.std.specs.Prelude.{◌≡◌, ℕ, Option, map, IfErr, IfOk, OnOk};
ghost use Rattle.fb_model.specs.System.{System};
ghost use Rattle.fb_model.specs.Certificates.{all_leaves};
ghost use Rattle.fb_cert.specs.Views.{no_rows, rows_of};
ghost use Rattle.fb_ranges.specs.Views.{spans_of};
ghost use Rattle.fb_find_ranges.specs.Found.{spelled};
ghost use Rattle.fb_model.specs.Finding.{IsNoBoundAt};
ghost use Rattle.fb_find.specs.Parts.{HasRanges, HaveTables, told_of};

use fb_cert::Certificate;
use fb_check_ranges::rows_clear;
use fb_faults::{NoBound, Unclear};
use fb_find_ranges::add_ranges;
use fb_flat::Flat;
use fb_ranges::Ranges;
use std::alloc::Global;

// What is unclear under ranges has no range.
fn no_range(fault: Unclear) -> NoBound
    ensures { result ≡ told_of fault }
{
    match fault {
        Unclear::OutOfMemory => NoBound::OutOfMemory,
        Unclear::Start(path) => NoBound::NoRange(path),
        Unclear::Link(path) => NoBound::NoRange(path),
        Unclear::Kept(path) => NoBound::NoRange(path),
        Unclear::IndexOrDivisor(path) => NoBound::NoRange(path),
    }
}

// Adds the rows RANGE that these tables spell, leaf by leaf, under which all is clear.
fn add_clear(
    alloc: Global,
    flat: &Flat,
    tables: &[Ranges],
    certificate: &mut Certificate,
) -> Result<(), NoBound>
    ensures ranged { (s : System) → HaveTables flat.now.devices.items (map spans_of tables.now) s → rows_of certificate.old ≡ no_rows → OnOk result (HasRanges s (spelled (map spans_of tables.now) (all_leaves s.devices)) (rows_of certificate.new)) }
    ensures refused { (repeats : Option ℕ) (s : System) → HaveTables flat.now.devices.items (map spans_of tables.now) s → rows_of certificate.old ≡ no_rows → IfErr result (IsNoBoundAt (spelled (map spans_of tables.now) (all_leaves s.devices)) repeats s) }
{
    add_ranges(alloc, flat, tables, certificate)?;
    match rows_clear(alloc, flat, certificate) {
        Ok(()) => Ok(()),
        Err(fault) => Err(no_range(fault)),
    }
}

/// A certificate with the rows RANGE that these tables spell, leaf by leaf, under which all is clear.
pub(crate) fn with_ranges(
    alloc: Global,
    flat: &Flat,
    tables: &[Ranges],
) -> Result<Certificate, NoBound>
    ensures ranged { (s : System) → HaveTables flat.now.devices.items (map spans_of tables.now) s → IfOk result (λ c. HasRanges s (spelled (map spans_of tables.now) (all_leaves s.devices)) (rows_of c)) }
    ensures refused { (repeats : Option ℕ) (s : System) → HaveTables flat.now.devices.items (map spans_of tables.now) s → IfErr result (IsNoBoundAt (spelled (map spans_of tables.now) (all_leaves s.devices)) repeats s) }
{
    let mut certificate = Certificate::new(alloc);
    match add_clear(alloc, flat, tables, &mut certificate) {
        Ok(()) => Ok(certificate),
        Err(fault) => {
            certificate.let_go();
            Err(fault)
        }
    }
}
