//! The finder with ranges that are given.

ghost use Rattle.std.specs.Prelude.{◌≡◌, ◌≤◌, IfErr, IfOk, IfSome};
ghost use Rattle.fb_model.specs.System.{System};
ghost use Rattle.fb_model.specs.Certificates as book;
ghost use Rattle.fb_model.specs.Certificates.{Fits};
ghost use Rattle.fb_cert.specs.Views.{certificate_of, rows_of};
ghost use Rattle.fb_types.specs.Views.{system_of};
ghost use Rattle.fb_model.specs.Finding.{IsFoundWithin};
ghost use Rattle.fb_find.specs.Given.{IsGiven};
ghost use Rattle.fb_find.specs.Bounds.{IsNoBoundWithin, IsPathWithin, RowsStand};
ghost use Rattle.fb_model.specs.Finding.{AreTaken};
ghost use Rattle.fb_model.specs.Promises.{FindsLeast};
ghost use Rattle.fb_find.specs.Answers.{found_of};
ghost use Rattle.fb_model.specs.Finding.{IsRuledOut, IsWalk};

use crate::crowded::leaves;
use crate::finding::with_tables;
use crate::stand::rows_stand;
use crate::table::tables_in;
use fb_cert::Certificate;
use fb_faults::NoBound;
use fb_flat::Flat;
use fb_types::Typed;
use std::alloc::Global;

// The certificate of a system's leaves.
fn within(
    alloc: Global,
    flat: &Flat,
    repeats: Option<u8>,
    ranges: &Certificate,
) -> Result<Certificate, NoBound>
    requires some { IfSome repeats (λ r. 1 ≤ r) }
    requires given { (s : System) × IsGiven flat.now.devices.items s }
    ensures found { (s : System) → IsGiven flat.now.devices.items s → IfOk result (λ c. IsFoundWithin (certificate_of ranges.now).ranges repeats s (certificate_of c)) }
    ensures refused { (s : System) → IsGiven flat.now.devices.items s → IfErr result (IsNoBoundWithin (rows_of ranges.now) repeats s) }
{
    let tables = tables_in(alloc, flat, ranges)?;
    with_tables(alloc, flat, repeats, tables.as_slice())
}

// The same, where each of the rows that are given is one of the system.
fn kept_within(
    alloc: Global,
    flat: &Flat,
    repeats: Option<u8>,
    ranges: &Certificate,
) -> Result<Certificate, NoBound>
    requires some { IfSome repeats (λ r. 1 ≤ r) }
    requires given { (s : System) × IsGiven flat.now.devices.items s }
    ensures found { (s : System) → IsGiven flat.now.devices.items s → IfOk result (λ c. IsFoundWithin (certificate_of ranges.now).ranges repeats s (certificate_of c)) }
    ensures stand { IfOk result (λ c. RowsStand (rows_of ranges.now) (rows_of c)) }
    ensures refused { (s : System) → IsGiven flat.now.devices.items s → IfErr result (IsNoBoundWithin (rows_of ranges.now) repeats s) }
{
    let certificate = within(alloc, flat, repeats, ranges)?;
    match rows_stand(alloc, ranges, &certificate) {
        Ok(()) => Ok(certificate),
        Err(fault) => {
            certificate.let_go();
            Err(fault)
        }
    }
}

// The certificate of a system with ranges that are given, or why there is none, case by case.
fn sought_within(
    alloc: Global,
    typed: &Typed,
    repeats: Option<u8>,
    ranges: &Certificate,
) -> Result<Certificate, NoBound>
    requires { IfSome repeats (λ r. 1 ≤ r) }
    ensures found { IfOk result (λ c. IsFoundWithin (certificate_of ranges.now).ranges repeats (system_of typed.now) (certificate_of c)) }
    ensures stand { IfOk result (λ c. RowsStand (rows_of ranges.now) (rows_of c)) }
    ensures refused { IfErr result (IsNoBoundWithin (rows_of ranges.now) repeats (system_of typed.now)) }
    ensures denies { IfErr result (λ f. IsWalk f → (cert : book.Certificate) → IsRuledOut repeats cert → Fits (system_of typed.now) cert → ⊥) }
{
    typed.stands_in_text();
    let flat = leaves(alloc, typed)?;
    match kept_within(alloc, &flat, repeats, ranges) {
        Ok(certificate) => {
            flat.let_go();
            Ok(certificate)
        }
        Err(fault) => {
            flat.let_go();
            Err(fault)
        }
    }
}

/// The certificate of a system whose rows RANGE are taken from those of another: each variable that is not BOOL has the range that it has there, and all numbers of
/// its type where it has none. Every other number is the least of all certificates with these ranges that fit, as `find` has it. Rows of other kinds are passed over.
///
/// Refused as by `find`; with `NoRange` only where under these ranges that algorithm or guard is not clear, or the range of that variable does not lie in its type,
/// or does not hold what it has at first, or what it takes; or where that row RANGE is of no variable.
pub fn find_within(
    alloc: Global,
    typed: &Typed,
    repeats: Option<u8>,
    ranges: &Certificate,
) -> Result<Certificate, NoBound>
    requires { IfSome repeats (λ r. 1 ≤ r) }
    ensures least { FindsLeast (AreTaken (certificate_of ranges.now).ranges (system_of typed.now).devices) (IsPathWithin (rows_of ranges.now) repeats (system_of typed.now)) repeats (system_of typed.now) (found_of result) }
    ensures found { IfOk result (λ c. IsFoundWithin (certificate_of ranges.now).ranges repeats (system_of typed.now) (certificate_of c)) }
    ensures stand { IfOk result (λ c. RowsStand (rows_of ranges.now) (rows_of c)) }
    ensures refused { IfErr result (IsNoBoundWithin (rows_of ranges.now) repeats (system_of typed.now)) }
    ensures denies { IfErr result (λ f. IsWalk f → (cert : book.Certificate) → IsRuledOut repeats cert → Fits (system_of typed.now) cert → ⊥) }
{
    sought_within(alloc, typed, repeats, ranges)
}
