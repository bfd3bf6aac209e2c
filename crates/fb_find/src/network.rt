//! The rows of the network.

ghost use Rattle.std.specs.Prelude.{◌≡◌, ◌≤◌, ℕ, List, None, Some, map, IfErr, IfOk, IfSome, OnOk};
ghost use Rattle.fb_model.specs.System.{System};
ghost use Rattle.fb_model.specs.Ranges.{Range};
ghost use Rattle.fb_model.specs.Certificates.{all_leaves};
ghost use Rattle.fb_model.specs.CertificateText.{most_steps};
ghost use Rattle.fb_cert.specs.Views.{rows_of};
ghost use Rattle.fb_model.specs.Columns.{network_demands};
ghost use Rattle.fb_ranges.specs.Views.{spans_of};
ghost use Rattle.fb_find.specs.Columns.{AreSmallest, IsPastFault};
ghost use Rattle.fb_find.specs.Bounds.{IsFarFault};
ghost use Rattle.fb_find.specs.Parts.{HasTables, IsReady};
ghost use Rattle.fb_find.specs.Networks.{with_repeat, with_places, with_network, CanBeFar, CanBePlaced, HasNoNetwork, HasNetwork};

use crate::column;
use crate::least::{MOST_STEPS, Ordered, behind};
use fb_cert::{Certificate, Row};
use fb_faults::NoBound;
use fb_find_demands::{Numbering, far_rights};
use fb_find_rows::{add_channels, add_far_states, add_fars};
use fb_ranges::Ranges;
use std::alloc::{AllocError, Global};

// The least numbers of the steps on all devices, by the numbers of nodes.
fn far(
    alloc: Global,
    ordered: &Ordered,
    repeats: u8,
    tables: &[Ranges],
) -> Result<Vec<u64>, NoBound>
    requires { (s : System) × (ranges : List Range) × IsReady (Some repeats) ordered.now.flat.now.devices.items ordered.now.numbering.now ordered.now.order.now s × HasTables s ranges (map spans_of tables.now) }
    ensures least { (s : System) (ranges : List Range) → IsReady (Some repeats) ordered.now.flat.now.devices.items ordered.now.numbering.now ordered.now.order.now s → HasTables s ranges (map spans_of tables.now) → IfOk result (λ v. AreSmallest ordered.now.numbering.now (network_demands repeats ranges (all_leaves s.devices)) most_steps v.items) }
    ensures refused { (s : System) (ranges : List Range) → IsReady (Some repeats) ordered.now.flat.now.devices.items ordered.now.numbering.now ordered.now.order.now s → HasTables s ranges (map spans_of tables.now) → IfErr result (IsPastFault ordered.now.numbering.now (network_demands repeats ranges (all_leaves s.devices)) most_steps) }
{
    let rights = far_rights(alloc, ordered.numbering, repeats, ordered.flat, tables)?;
    column(alloc, ordered.numbering, ordered.order, rights, MOST_STEPS)
}

// Adds the row REPEATS.
fn add_repeats(alloc: Global, repeats: u8, certificate: &mut Certificate) -> Result<(), AllocError>
    ensures { 1 ≤ repeats → (rows_of certificate.old).repeats ≡ None → OnOk result (rows_of certificate.new ≡ with_repeat repeats (rows_of certificate.old)) }
{
    let _ = certificate.add(alloc, Row::Repeats(repeats))?;
    Ok(())
}

// Adds the rows FARSTATE and FAR with the numbers of nodes.
fn add_places(
    alloc: Global,
    numbering: &Numbering,
    numbers: &[u64],
    certificate: &mut Certificate,
) -> Result<(), AllocError>
    ensures { CanBePlaced numbering.now numbers.now (rows_of certificate.old) → OnOk result (rows_of certificate.new ≡ with_places numbering.now numbers.now (rows_of certificate.old)) }
{
    add_far_states(alloc, &numbering.states, numbers, certificate)?;
    let count = numbering.states.len();
    add_fars(
        alloc,
        &numbering.events,
        behind(numbers, count),
        certificate,
    )
}

// Adds the rows of the network with the numbers of nodes.
fn add_far(
    alloc: Global,
    repeats: u8,
    numbering: &Numbering,
    numbers: &[u64],
    certificate: &mut Certificate,
) -> Result<(), AllocError>
    ensures { 1 ≤ repeats → CanBeFar numbering.now numbers.now (rows_of certificate.old) → OnOk result (rows_of certificate.new ≡ with_network repeats numbering.now numbers.now (rows_of certificate.old)) }
{
    add_repeats(alloc, repeats, certificate)?;
    add_places(alloc, numbering, numbers, certificate)?;
    let states = numbering.states.len();
    let events = numbering.events.len();
    add_channels(
        alloc,
        numbering.channels.as_slice(),
        behind(behind(numbers, states), events),
        certificate,
    )
}

/// Adds the rows of the network, each number the least, where datagrams are followed, and else none.
pub(crate) fn add_network(
    alloc: Global,
    ordered: &Ordered,
    repeats: Option<u8>,
    tables: &[Ranges],
    certificate: &mut Certificate,
) -> Result<(), NoBound>
    requires some { IfSome repeats (λ r. 1 ≤ r) }
    requires ready { (s : System) × (ranges : List Range) × IsReady repeats ordered.now.flat.now.devices.items ordered.now.numbering.now ordered.now.order.now s × HasTables s ranges (map spans_of tables.now) }
    ensures added { (s : System) (ranges : List Range) → IsReady repeats ordered.now.flat.now.devices.items ordered.now.numbering.now ordered.now.order.now s → HasTables s ranges (map spans_of tables.now) → HasNoNetwork (rows_of certificate.old) → OnOk result (HasNetwork repeats ordered.now.numbering.now s ranges (rows_of certificate.old) (rows_of certificate.new)) }
    ensures refused { (s : System) (ranges : List Range) → IsReady repeats ordered.now.flat.now.devices.items ordered.now.numbering.now ordered.now.order.now s → HasTables s ranges (map spans_of tables.now) → IfErr result (IsFarFault repeats ordered.now.numbering.now s ranges) }
{
    let Some(repeats) = repeats else {
        return Ok(());
    };
    let numbers = far(alloc, ordered, repeats, tables)?;
    add_far(
        alloc,
        repeats,
        ordered.numbering,
        numbers.as_slice(),
        certificate,
    )?;
    Ok(())
}
