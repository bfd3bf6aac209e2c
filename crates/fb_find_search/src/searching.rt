//! The finder that keeps given ranges, and the one that tries harder.

ghost use Rattle.std.specs.Prelude.{◌≡◌, ◌≤◌, [], true, IfErr, IfOk, IfSome};
ghost use Rattle.fb_model.specs.Names.{is_in};
ghost use Rattle.fb_model.specs.Certificates as book;
ghost use Rattle.fb_model.specs.Certificates.{Fits};
ghost use Rattle.fb_cert.specs.Views.{certificate_of, rows_of};
ghost use Rattle.fb_types.specs.Views.{system_of};
ghost use Rattle.fb_types_blocks.specs.Views.{names_of};
ghost use Rattle.fb_check_rows.specs.Members.{gathered};
ghost use Rattle.fb_check_rows.specs.Texts.{texts_of};
ghost use Rattle.fb_check_rows.specs.declared.kind.RowKind.TheVariants.{Range};
ghost use Rattle.fb_find.specs.Bounds.{RowsStand};
ghost use Rattle.fb_model.specs.Finding.{IsRuledOut, IsNoBound, IsWalk};
ghost use Rattle.fb_find_search.specs.Searching.{AreFirstOf, IsFoundSomehow, IsNoBoundKeeping, IsRanged, IsSearched, IsStill};

use fb_cert::{Certificate, Row};
use fb_check_rows::{RowKind, required};
use fb_faults::{NoBound, TypeFault};
use fb_find::{find, find_within};
use fb_find_candidate::candidate;
use fb_flat::{Flat, flatten};
use fb_ranges_intervals::Interval;
use fb_types::Typed;
use indexmap::IndexSet;
use std::alloc::{AllocError, Global};

// Adds a row RANGE at the end, if it is of one of these paths, and new.
fn add_range(
    alloc: Global,
    row: (&str, Interval),
    paths: &IndexSet<String>,
    rows: &mut Certificate,
) -> Result<(), AllocError>
    ensures { AreFirstOf (λ path. is_in path (names_of paths.now) ≡ true) (rows_of rows.old) (rows_of rows.new) }
{
    let (path, interval) = row;
    if !paths.contains(path) {
        return Ok(());
    }
    match rows.add(alloc, Row::Range(path, interval)) {
        Ok(_) => Ok(()),
        Err(error) => Err(error),
    }
}

// Adds those rows RANGE of another certificate at the end that are of these paths and new.
fn add_ranges(
    alloc: Global,
    more: &Certificate,
    paths: &IndexSet<String>,
    rows: &mut Certificate,
) -> Result<(), AllocError>
    ensures { AreFirstOf (λ path. is_in path (names_of paths.now) ≡ true) (rows_of rows.old) (rows_of rows.new) }
{
    for index in 0..more.range_count() {
        let Some(row) = more.range_at(index) else {
            return Ok(());
        };
        add_range(alloc, row, paths, rows)?;
    }
    Ok(())
}

// Adds those rows RANGE of another certificate at the end that are of leaves.
fn add_proposed(
    alloc: Global,
    flat: &Flat,
    more: &Certificate,
    rows: &mut Certificate,
) -> Result<(), AllocError>
    ensures { AreFirstOf (λ path. is_in path (texts_of Range flat.now.devices.items) ≡ true) (rows_of rows.old) (rows_of rows.new) }
{
    match required(alloc, RowKind::Range, flat) {
        Ok(paths) => add_ranges(alloc, more, &paths, rows),
        Err(_) => Err(AllocError),
    }
}

// Proposes rows RANGE of leaves, and adds them at the end.
fn propose(alloc: Global, flat: &Flat, rows: &mut Certificate) -> Result<(), AllocError>
    ensures { AreFirstOf (λ path. is_in path (texts_of Range flat.now.devices.items) ≡ true) (rows_of rows.old) (rows_of rows.new) }
{
    match candidate(alloc, flat, rows) {
        Ok(more) => {
            let added = add_proposed(alloc, flat, &more, rows);
            more.let_go();
            added
        }
        Err(error) => Err(error),
    }
}

// Adds rows RANGE that are proposed with those that there are; none, where there are no leaves.
fn add_more(alloc: Global, typed: &Typed, rows: &mut Certificate) -> Result<(), AllocError>
    ensures { AreFirstOf (IsRanged (system_of typed.now)) (rows_of rows.old) (rows_of rows.new) }
{
    typed.stands_in_text();
    match flatten(alloc, typed) {
        Ok(flat) => {
            let added = propose(alloc, &flat, rows);
            flat.let_go();
            added
        }
        Err(TypeFault::OutOfMemory) => Err(AllocError),
        Err(_) => Ok(()),
    }
}

// The rows that are given, and after them those RANGE that are proposed.
fn with_proposed(
    alloc: Global,
    typed: &Typed,
    given: Certificate,
) -> Result<Certificate, AllocError>
    ensures { IfOk result (λ c. AreFirstOf (IsRanged (system_of typed.now)) (rows_of given) (rows_of c)) }
{
    let mut rows = given;
    match add_more(alloc, typed, &mut rows) {
        Ok(()) => Ok(rows),
        Err(error) => {
            rows.let_go();
            Err(error)
        }
    }
}

/// A certificate in which each row RANGE of another stands; the other ranges are proposed. Every other number is the least of all certificates with these ranges that
/// fit, as `find` has it.
///
/// Refused as by `find_within` under the rows that are given with those that are proposed behind them, each of a variable of the system.
pub fn find_keeping(
    alloc: Global,
    typed: &Typed,
    repeats: Option<u8>,
    given: Certificate,
) -> Result<Certificate, NoBound>
    requires { IfSome repeats (λ r. 1 ≤ r) }
    ensures found { IfOk result (λ c. IsFoundSomehow repeats (system_of typed.now) (certificate_of c)) }
    ensures stand { IfOk result (λ c. RowsStand (rows_of given) (rows_of c)) }
    ensures refused { IfErr result (IsNoBoundKeeping (rows_of given) repeats (system_of typed.now)) }
{
    match with_proposed(alloc, typed, given) {
        Ok(ranges) => {
            let found = find_within(alloc, typed, repeats, &ranges);
            ranges.let_go();
            found
        }
        Err(_) => Err(NoBound::OutOfMemory),
    }
}

// The certificate with ranges that are proposed; where there is none, nothing clear at this path as before.
fn tried(
    alloc: Global,
    typed: &Typed,
    repeats: Option<u8>,
    path: String,
) -> Result<Certificate, NoBound>
    requires { IfSome repeats (λ r. 1 ≤ r) }
    ensures found { IfOk result (λ c. IsFoundSomehow repeats (system_of typed.now) (certificate_of c)) }
    ensures refused { IfErr result (IsStill path) }
{
    match find_keeping(alloc, typed, repeats, Certificate::new(alloc)) {
        Ok(certificate) => Ok(certificate),
        Err(NoBound::OutOfMemory) => Err(NoBound::OutOfMemory),
        Err(_) => Err(NoBound::NoRange(path)),
    }
}

/// The certificate that `find` answers; and where nothing is clear under the ranges of its rounds, one with ranges that are proposed, in which every other number is the
/// least of all certificates with these ranges that fit.
///
/// Refused only as `find` refuses.
pub fn search(alloc: Global, typed: &Typed, repeats: Option<u8>) -> Result<Certificate, NoBound>
    requires { IfSome repeats (λ r. 1 ≤ r) }
    ensures found { IfOk result (λ c. IsFoundSomehow repeats (system_of typed.now) (certificate_of c)) }
    ensures own { IfOk result (λ c. IsSearched repeats (system_of typed.now) (certificate_of c)) }
    ensures refused { IfErr result (IsNoBound repeats (system_of typed.now)) }
    ensures denies { IfErr result (λ f. IsWalk f → (cert : book.Certificate) → IsRuledOut repeats cert → Fits (system_of typed.now) cert → ⊥) }
{
    match find(alloc, typed, repeats) {
        Ok(certificate) => Ok(certificate),
        Err(NoBound::NoRange(path)) => tried(alloc, typed, repeats, path),
        Err(fault) => Err(fault),
    }
}
