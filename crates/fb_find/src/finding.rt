//! The finder.

ghost use Rattle.std.specs.Prelude.{◌≡◌, ◌≤◌, map, IfErr, IfOk, IfSome};
ghost use Rattle.fb_model.specs.System.{System};
ghost use Rattle.fb_model.specs.Certificates as book;
ghost use Rattle.fb_model.specs.Certificates.{all_leaves, Fits};
ghost use Rattle.fb_model.specs.FinderRanges.{AreFound};
ghost use Rattle.fb_model.specs.Finding.{FailsFound};
ghost use Rattle.fb_model.specs.Promises.{FindsLeast};
ghost use Rattle.fb_find.specs.Answers.{found_of};
ghost use Rattle.fb_cert.specs.Views.{certificate_of};
ghost use Rattle.fb_types.specs.Views.{system_of};
ghost use Rattle.fb_ranges.specs.Views.{spans_of};
ghost use Rattle.fb_find_laws.specs.Finding.{IsMadeWith};
ghost use Rattle.fb_model.specs.Finding.{IsFound, IsFoundWith};
ghost use Rattle.fb_find_ranges.specs.Found.{spelled};
ghost use Rattle.fb_find.specs.Given.{IsGiven};
ghost use Rattle.fb_find.specs.Parts.{events_in, states_in, HasNumbering, HaveTables, IsReady};
ghost use Rattle.fb_model.specs.Finding.{IsNoBound, IsNoBoundAt, IsWalk, IsRuledOut};

use crate::clear::with_ranges;
use crate::crowded::leaves;
use crate::least::{Ordered, with_numbers};
use crate::order;
use crate::table::tables_in;
use fb_cert::Certificate;
use fb_faults::NoBound;
use fb_find_demands::{Numbering, numbering};
use fb_find_ranges::tables;
use fb_flat::Flat;
use fb_ranges::Ranges;
use fb_types::Typed;
use std::alloc::{AllocError, Global};

// The numbers of a system's nodes, those of channels where datagrams are followed.
fn numbered(alloc: Global, repeats: Option<u8>, flat: &Flat) -> Result<Numbering, AllocError>
    ensures { (s : System) → IsGiven flat.now.devices.items s → IfOk result (λ n. HasNumbering repeats flat.now.devices.items n s) }
{
    let Ok(numbering) = numbering(alloc, repeats, flat) else {
        return Err(AllocError);
    };
    Ok(numbering)
}

// The certificate of a system whose ranges are those of tables, over an order of its nodes that serves all columns.
fn with_order(
    alloc: Global,
    flat: &Flat,
    repeats: Option<u8>,
    tables: &[Ranges],
    numbering: &Numbering,
    order: &[usize],
) -> Result<Certificate, NoBound>
    requires some { IfSome repeats (λ r. 1 ≤ r) }
    requires ready { (s : System) × HaveTables flat.now.devices.items (map spans_of tables.now) s × IsReady repeats flat.now.devices.items numbering.now order.now s }
    ensures made { (s : System) → HaveTables flat.now.devices.items (map spans_of tables.now) s → IsReady repeats flat.now.devices.items numbering.now order.now s → IfOk result (λ c. IsMadeWith (λ rs. rs ≡ spelled (map spans_of tables.now) (all_leaves s.devices)) repeats s (states_in numbering.now) (events_in numbering.now) numbering.now.channels.items (certificate_of c)) }
    ensures refused { (s : System) → HaveTables flat.now.devices.items (map spans_of tables.now) s → IsReady repeats flat.now.devices.items numbering.now order.now s → IfErr result (IsNoBoundAt (spelled (map spans_of tables.now) (all_leaves s.devices)) repeats s) }
{
    let certificate = with_ranges(alloc, flat, tables)?;
    match tables_in(alloc, flat, &certificate) {
        Ok(own) => {
            let ordered = Ordered {
                flat,
                numbering,
                order,
            };
            with_numbers(alloc, &ordered, repeats, own.as_slice(), certificate)
        }
        Err(fault) => {
            certificate.let_go();
            Err(NoBound::from(fault))
        }
    }
}

/// The certificate of a system whose ranges are those of tables, leaf by leaf.
pub(crate) fn with_tables(
    alloc: Global,
    flat: &Flat,
    repeats: Option<u8>,
    tables: &[Ranges],
) -> Result<Certificate, NoBound>
    requires some { IfSome repeats (λ r. 1 ≤ r) }
    requires tables { (s : System) × HaveTables flat.now.devices.items (map spans_of tables.now) s }
    ensures found { (s : System) → HaveTables flat.now.devices.items (map spans_of tables.now) s → IfOk result (λ c. IsFoundWith (λ rs. rs ≡ spelled (map spans_of tables.now) (all_leaves s.devices)) repeats s (certificate_of c)) }
    ensures refused { (s : System) → HaveTables flat.now.devices.items (map spans_of tables.now) s → IfErr result (IsNoBoundAt (spelled (map spans_of tables.now) (all_leaves s.devices)) repeats s) }
{
    let numbering = numbered(alloc, repeats, flat)?;
    let order = order(alloc, flat, &numbering, repeats)?;
    with_order(alloc, flat, repeats, tables, &numbering, order.as_slice())
}

// The certificate of a system's leaves.
fn found(alloc: Global, flat: &Flat, repeats: Option<u8>) -> Result<Certificate, NoBound>
    requires some { IfSome repeats (λ r. 1 ≤ r) }
    requires given { (s : System) × IsGiven flat.now.devices.items s }
    ensures found { (s : System) → IsGiven flat.now.devices.items s → IfOk result (λ c. IsFound repeats s (certificate_of c)) }
    ensures refused { (s : System) → IsGiven flat.now.devices.items s → IfErr result (IsNoBound repeats s) }
{
    let tables = tables(alloc, flat)?;
    with_tables(alloc, flat, repeats, tables.as_slice())
}

// The certificate of a system, or why there is none, case by case.
fn sought(alloc: Global, typed: &Typed, repeats: Option<u8>) -> Result<Certificate, NoBound>
    requires { IfSome repeats (λ r. 1 ≤ r) }
    ensures found { IfOk result (λ c. IsFound repeats (system_of typed.now) (certificate_of c)) }
    ensures refused { IfErr result (IsNoBound repeats (system_of typed.now)) }
    ensures denies { IfErr result (λ f. IsWalk f → (cert : book.Certificate) → IsRuledOut repeats cert → Fits (system_of typed.now) cert → ⊥) }
{
    typed.stands_in_text();
    let flat = leaves(alloc, typed)?;
    match found(alloc, &flat, repeats) {
        Ok(certificate) => {
            flat.let_go();
            Ok(certificate)
        }
        Err(fault) => {
            flat.let_go();
            Err(fault)
        }
    }
}

/// The certificate of a system. Its ranges are those of the finder's rounds, and every other number is the least of all certificates with these
/// ranges that fit; a depth is at least 1. Its rows stand kind by kind, each kind in text order: leaf by leaf, or resource by resource.
///
/// With `repeats`, 1 or more, it also bounds what one event causes on all devices, where each datagram is delivered at most so often to a device: its rows
/// `FAR`, `FARSTATE` and `CHANNEL`, these upwards, are each the least of all certificates with these ranges and this `REPEATS` that fit.
///
/// Refused with `Cycle` only where the places are a closed walk of demands, with `repeats` of those of the network, from that of them on whose row comes first,
/// channels last, so that no certificate fits, or none with a row `REPEATS`; with `NoRange` only where that algorithm or guard is not clear under these
/// ranges; with `Limit` only where a least number of the resource, or of a channel that ends there, or the connections that it follows, are above their limit.
pub fn find(alloc: Global, typed: &Typed, repeats: Option<u8>) -> Result<Certificate, NoBound>
    requires { IfSome repeats (λ r. 1 ≤ r) }
    ensures least { FindsLeast (AreFound (system_of typed.now).devices) (FailsFound (system_of typed.now)) repeats (system_of typed.now) (found_of result) }
    ensures found { IfOk result (λ c. IsFound repeats (system_of typed.now) (certificate_of c)) }
    ensures refused { IfErr result (IsNoBound repeats (system_of typed.now)) }
    ensures denies { IfErr result (λ f. IsWalk f → (cert : book.Certificate) → IsRuledOut repeats cert → Fits (system_of typed.now) cert → ⊥) }
{
    sought(alloc, typed, repeats)
}
