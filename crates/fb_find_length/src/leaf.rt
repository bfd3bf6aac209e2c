//! Rows of leaves, behind a path of a length.

ghost use Rattle.std.specs.Prelude.{◌≡◌, ◌+◌, ◌<◌, ◌≤◌};
ghost use Rattle.std.specs.Option.{MatchOption};
ghost use Rattle.fb_model.specs.Services.{service_events};
ghost use Rattle.fb_model.specs.Wires.{Charted, Serviced};
ghost use Rattle.fb_types_blocks.specs.Views.{block_of};
ghost use Rattle.fb_types_services.specs.Views.{service_of};
ghost use Rattle.fb_find_length.specs.Counting.{names_length, kind_ranges, own_length, far_length, kind_length};

use crate::row::{names, ranges, row, table};
use fb_types_blocks::Block;
use fb_types_services::Service;

// What is left behind the rows RANGE of a block.
fn block_ranges(left: usize, beside: usize, block: &Block) -> Option<usize>
    ensures { MatchOption result (left < kind_ranges beside (Charted (block_of block.now))) (λ rest. rest + kind_ranges beside (Charted (block_of block.now)) ≡ left) }
{
    let left = ranges(left, beside, &block.face.inputs)?;
    let left = ranges(left, beside, &block.face.outputs)?;
    ranges(left, beside, &block.internals)
}

// What is left behind the rows of a block that each certificate has.
fn own_rows(left: usize, path: usize, block: &Block) -> Option<usize>
    requires { path ≤ 16777217 }
    ensures { MatchOption result (left < own_length path (Charted (block_of block.now))) (λ rest. rest + own_length path (Charted (block_of block.now)) ≡ left) }
{
    let left = block_ranges(left, path + 11, block)?;
    let left = table(left, path + 12, &block.states)?;
    table(left, path + 12, &block.face.event_inputs)
}

// What is left behind those that one with a row REPEATS has beside them.
fn far_rows(left: usize, path: usize, repeats: Option<u8>, block: &Block) -> Option<usize>
    requires { path ≤ 16777217 }
    ensures { MatchOption result (left < far_length repeats path (Charted (block_of block.now))) (λ rest. rest + far_length repeats path (Charted (block_of block.now)) ≡ left) }
{
    match repeats {
        None => Some(left),
        Some(_) => {
            let left = table(left, path + 7, &block.face.event_inputs)?;
            table(left, path + 12, &block.states)
        }
    }
}

/// What is left behind the rows of a basic block.
pub(crate) fn block(left: usize, path: usize, repeats: Option<u8>, block: &Block) -> Option<usize>
    requires { path ≤ 16777217 }
    ensures { MatchOption result (left < kind_length repeats path (Charted (block_of block.now))) (λ rest. rest + kind_length repeats path (Charted (block_of block.now)) ≡ left) }
{
    let left = own_rows(left, path, block)?;
    far_rows(left, path, repeats, block)
}

// What is left behind the rows of the events of a service.
fn events(left: usize, beside: usize, service: &Service) -> Option<usize>
    ensures { MatchOption result (left < names_length beside (service_events (service_of service.now))) (λ rest. rest + names_length beside (service_events (service_of service.now)) ≡ left) }
{
    let left = names(left, beside, service.event_inputs())?;
    match service.arrival() {
        Some(event) => row(left, beside, event),
        None => Some(left),
    }
}

/// What is left behind the rows of a service.
pub(crate) fn service(
    left: usize,
    path: usize,
    repeats: Option<u8>,
    service: &Service,
) -> Option<usize>
    requires { path ≤ 16777217 }
    ensures { MatchOption result (left < kind_length repeats path (Serviced (service_of service.now))) (λ rest. rest + kind_length repeats path (Serviced (service_of service.now)) ≡ left) }
{
    let left = events(left, path + 12, service)?;
    match repeats {
        None => Some(left),
        Some(_) => events(left, path + 7, service),
    }
}
