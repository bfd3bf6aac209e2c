//! Blocks with their events, outputs and bodies.

ghost use Rattle.std.specs.Prelude.{◌≡◌, IfOk, OnOk};
ghost use Rattle.std.specs.List.{AllByRecursion};
ghost use Rattle.fb_types_blocks.specs.Views.{names_of};
ghost use Rattle.fb_chart.specs.Tables.{Each};
ghost use Rattle.fb_device_tables.specs.Filling.{IsShared, IsBlockMade, seat_of, seats_of};

use crate::body::body;
use crate::chart::Shared;
use crate::event::{Seating, events};
use crate::seat::Seat;
use crate::target::outputs;
use fb_cert::Certificate;
use fb_chart::Block;
use indexmap::IndexSet;
use std::alloc::{AllocError, Global};

// The block of a leaf.
fn block<'a>(
    alloc: Global,
    certificate: &Certificate,
    paths: &IndexSet<String>,
    seats: &[Seat<'a>],
    seat: &Seat<'a>,
    known: &mut Vec<Shared<'a>>,
) -> Result<Block, AllocError>
    requires { AllByRecursion IsShared known.old.items }
    ensures block { IfOk result (λ x. IsBlockMade certificate.now (names_of paths.now) (seats_of seats.now) (seat_of seat.now) x) }
    ensures known { OnOk result (AllByRecursion IsShared known.new.items) }
{
    let path = seat.leaf.path.clone()?;
    let seating = Seating {
        certificate,
        paths,
        seats,
    };
    let events = events(alloc, &seating, seat)?;
    let outputs = outputs(alloc, paths, seats, seat, &seat.leaf.outputs)?;
    let body = body(alloc, known, seat.own, &seat.leaf.body)?;
    Ok(Block {
        path,
        resource: seat.resource,
        events,
        outputs,
        body,
    })
}

/// The blocks of leaves, in order.
pub(crate) fn blocks(
    alloc: Global,
    certificate: &Certificate,
    paths: &IndexSet<String>,
    seats: &[Seat],
) -> Result<Vec<Block>, AllocError>
    ensures { IfOk result (λ v. Each (IsBlockMade certificate.now (names_of paths.now) (seats_of seats.now)) (seats_of seats.now) v.items) }
{
    let mut known = Vec::new(alloc);
    let mut blocks = Vec::new(alloc);
    for seat in seats {
        blocks.push(block(alloc, certificate, paths, seats, seat, &mut known)?)?;
    }
    Ok(blocks)
}
