//! The numbers of both columns, and a certificate with them.

ghost use Rattle.std.specs.Prelude.{◌≡◌, ◌≤◌, ℕ, List, Option, map, drop, IfErr, IfOk, IfSome, OnOk};
ghost use Rattle.fb_model.specs.System.{System};
ghost use Rattle.fb_model.specs.Clear.{Spans};
ghost use Rattle.fb_model.specs.Ranges.{Range};
ghost use Rattle.fb_model.specs.Certificates.{all_leaves};
ghost use Rattle.fb_model.specs.CertificateText.{most_places, most_steps};
ghost use Rattle.fb_cert.specs.Views.{certificate_of, rows_of};
ghost use Rattle.fb_model.specs.Columns.{demands};
ghost use Rattle.fb_find_laws.specs.Finding.{IsMadeWith};
ghost use Rattle.fb_ranges.specs.Views.{spans_of};
ghost use Rattle.fb_find.specs.Columns.{AreSmallest, IsPastFault};
ghost use Rattle.fb_model.specs.Finding.{IsNoBoundAt};
ghost use Rattle.fb_find.specs.Parts.{events_in, states_in, CanBeAdded, HasRanges, HasTables, IsReady, with_columns};

use crate::column;
use crate::network::add_network;
use fb_cert::Certificate;
use fb_faults::NoBound;
use fb_find_demands::{Numbering, plain_rights, priced_rights};
use fb_find_rows::{add_charges, add_depths, add_weights};
use fb_flat::Flat;
use fb_ranges::Ranges;
use std::alloc::{AllocError, Global};

/// The most steps of a row.
pub(crate) const MOST_STEPS: u64 = 1_000_000_000_000;

/// The most places of a row.
const MOST_PLACES: u64 = 4096;

/// A system's leaves, the numbers of its nodes, and an order of these that serves all columns.
#[derive(Clone, Copy)]
pub(crate) struct Ordered<'a> {
    pub flat: &'a Flat,
    pub numbering: &'a Numbering,
    pub order: &'a [usize],
}

// The least numbers of the steps column, by the numbers of nodes.
fn steps(alloc: Global, ordered: &Ordered, tables: &[Ranges]) -> Result<Vec<u64>, NoBound>
    requires { (s : System) × (ranges : List Range) × (repeats : Option ℕ) × IsReady repeats ordered.now.flat.now.devices.items ordered.now.numbering.now ordered.now.order.now s × HasTables s ranges (map spans_of tables.now) }
    ensures least { (s : System) (ranges : List Range) (repeats : Option ℕ) → IsReady repeats ordered.now.flat.now.devices.items ordered.now.numbering.now ordered.now.order.now s → HasTables s ranges (map spans_of tables.now) → IfOk result (λ v. AreSmallest ordered.now.numbering.now (demands 1 ranges (all_leaves s.devices)) most_steps v.items) }
    ensures refused { (s : System) (ranges : List Range) (repeats : Option ℕ) → IsReady repeats ordered.now.flat.now.devices.items ordered.now.numbering.now ordered.now.order.now s → HasTables s ranges (map spans_of tables.now) → IfErr result (IsPastFault ordered.now.numbering.now (demands 1 ranges (all_leaves s.devices)) most_steps) }
{
    let rights = priced_rights(alloc, ordered.numbering, ordered.flat, tables)?;
    column(alloc, ordered.numbering, ordered.order, rights, MOST_STEPS)
}

// The least numbers of the places column, by the numbers of nodes.
fn places(alloc: Global, ordered: &Ordered) -> Result<Vec<u64>, NoBound>
    requires { (s : System) × (repeats : Option ℕ) × IsReady repeats ordered.now.flat.now.devices.items ordered.now.numbering.now ordered.now.order.now s }
    ensures least { (s : System) (ranges : List Range) (repeats : Option ℕ) → IsReady repeats ordered.now.flat.now.devices.items ordered.now.numbering.now ordered.now.order.now s → IfOk result (λ v. AreSmallest ordered.now.numbering.now (demands 0 ranges (all_leaves s.devices)) most_places v.items) }
    ensures refused { (s : System) (ranges : List Range) (repeats : Option ℕ) → IsReady repeats ordered.now.flat.now.devices.items ordered.now.numbering.now ordered.now.order.now s → IfErr result (IsPastFault ordered.now.numbering.now (demands 0 ranges (all_leaves s.devices)) most_places) }
{
    let rights = plain_rights(alloc, ordered.numbering, 0, ordered.flat)?;
    column(alloc, ordered.numbering, ordered.order, rights, MOST_PLACES)
}

/// The numbers behind the first so many.
pub(crate) fn behind(numbers: &[u64], count: usize) -> &[u64]
    ensures { result.now ≡ drop count numbers.now }
{
    if count <= numbers.len() {
        &numbers[count..]
    } else {
        &[]
    }
}

// Adds the rows CHARGE and WEIGHT with the numbers of nodes.
fn add_numbers(
    alloc: Global,
    numbering: &Numbering,
    steps: &[u64],
    places: &[u64],
    certificate: &mut Certificate,
) -> Result<(), AllocError>
    ensures { CanBeAdded numbering.now steps.now places.now (rows_of certificate.old) → OnOk result (rows_of certificate.new ≡ with_columns numbering.now steps.now places.now (rows_of certificate.old)) }
{
    add_charges(alloc, &numbering.states, steps, places, certificate)?;
    let count = numbering.states.len();
    add_weights(
        alloc,
        &numbering.events,
        behind(steps, count),
        behind(places, count),
        certificate,
    )
}

// Adds the rows CHARGE, WEIGHT and DEPTH, each number the least, and those of the network where datagrams are followed.
fn add_all(
    alloc: Global,
    ordered: &Ordered,
    repeats: Option<u8>,
    tables: &[Ranges],
    certificate: &mut Certificate,
) -> Result<(), NoBound>
    requires some { IfSome repeats (λ r. 1 ≤ r) }
    requires ready { (s : System) × (ranges : List Range) × IsReady repeats ordered.now.flat.now.devices.items ordered.now.numbering.now ordered.now.order.now s × HasTables s ranges (map spans_of tables.now) }
    ensures made { (s : System) (ranges : List Range) → IsReady repeats ordered.now.flat.now.devices.items ordered.now.numbering.now ordered.now.order.now s → HasTables s ranges (map spans_of tables.now) → HasRanges s ranges (rows_of certificate.old) → OnOk result (IsMadeWith (λ rs. rs ≡ ranges) repeats s (states_in ordered.now.numbering.now) (events_in ordered.now.numbering.now) ordered.now.numbering.now.channels.items (certificate_of certificate.new)) }
    ensures refused { (s : System) (ranges : List Range) → IsReady repeats ordered.now.flat.now.devices.items ordered.now.numbering.now ordered.now.order.now s → HasTables s ranges (map spans_of tables.now) → HasRanges s ranges (rows_of certificate.old) → IfErr result (IsNoBoundAt ranges repeats s) }
{
    let steps = steps(alloc, ordered, tables)?;
    let places = places(alloc, ordered)?;
    add_numbers(
        alloc,
        ordered.numbering,
        steps.as_slice(),
        places.as_slice(),
        certificate,
    )?;
    add_depths(alloc, ordered.flat, certificate)?;
    add_network(alloc, ordered, repeats, tables, certificate)?;
    certificate.stands_in_text();
    Ok(())
}

/// A certificate with the rows CHARGE, WEIGHT and DEPTH, each number the least, and with those of the network where datagrams are followed.
pub(crate) fn with_numbers(
    alloc: Global,
    ordered: &Ordered,
    repeats: Option<u8>,
    tables: &[Ranges],
    certificate: Certificate,
) -> Result<Certificate, NoBound>
    requires some { IfSome repeats (λ r. 1 ≤ r) }
    requires ready { (s : System) × (ranges : List Range) × IsReady repeats ordered.now.flat.now.devices.items ordered.now.numbering.now ordered.now.order.now s × HasTables s ranges (map spans_of tables.now) }
    ensures made { (s : System) (ranges : List Range) → IsReady repeats ordered.now.flat.now.devices.items ordered.now.numbering.now ordered.now.order.now s → HasTables s ranges (map spans_of tables.now) → HasRanges s ranges (rows_of certificate) → IfOk result (λ c. IsMadeWith (λ rs. rs ≡ ranges) repeats s (states_in ordered.now.numbering.now) (events_in ordered.now.numbering.now) ordered.now.numbering.now.channels.items (certificate_of c)) }
    ensures refused { (s : System) (ranges : List Range) → IsReady repeats ordered.now.flat.now.devices.items ordered.now.numbering.now ordered.now.order.now s → HasTables s ranges (map spans_of tables.now) → HasRanges s ranges (rows_of certificate) → IfErr result (IsNoBoundAt ranges repeats s) }
{
    let mut certificate = certificate;
    match add_all(alloc, ordered, repeats, tables, &mut certificate) {
        Ok(()) => Ok(certificate),
        Err(fault) => {
            certificate.let_go();
            Err(fault)
        }
    }
}
