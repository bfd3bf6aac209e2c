//! The blocks of a device that take arrivals from outside, by their numbers.

ghost use Rattle.std.specs.Prelude.{ℕ, ◌≡◌, ◌==◌, ◌≤◌, false, length, IfOk, MatchOption};
ghost use Rattle.fb_chart.specs.Views.{body_kind};
ghost use Rattle.fb_device_tables.specs.Tables.{AreNumbered};
ghost use Rattle.fb_device_tables.specs.Takers.{is_taker};
ghost use Rattle.fb_device_tables.specs.Filling.{most_numbers};

use crate::names::short;
use fb_chart::{Block, Body};
use fb_types_services::Service;
use indexmap::IndexMap;
use std::alloc::{AllocError, Global};

/// What takes arrivals from outside.
#[derive(Clone, Copy)]
pub(crate) enum Taker {
    /// The INPUT of a number.
    Input,
    /// The SUBSCRIBE of a channel.
    Subscriber,
}

// The number by which a block takes arrivals.
fn number_of(body: &Body, taker: Taker) -> Option<u16>
    ensures { MatchOption result ((n : ℕ) → is_taker taker n (body_kind body.now) ≡ false) (λ number. (n : ℕ) → is_taker taker n (body_kind body.now) ≡ (number == n)) }
{
    match (taker, body) {
        (Taker::Input, Body::Served(Service::Input(number, _))) => Some(*number),
        (Taker::Subscriber, Body::Served(Service::Subscribe(channel, _))) => Some(channel.number),
        _ => None,
    }
}

/// The numbers of the blocks that take arrivals so, by the numbers by which they take them; of each number the first.
pub(crate) fn numbered(
    alloc: Global,
    blocks: &[Block],
    taker: Taker,
) -> Result<IndexMap<u16, u16>, AllocError>
    ensures { length blocks.now ≤ most_numbers → IfOk result (λ m. AreNumbered (is_taker taker) m blocks.now) }
{
    let mut found = IndexMap::new(alloc);
    for at in (0..blocks.len()).rev() {
        if let Some(number) = number_of(&blocks[at].body, taker) {
            if found.insert(number, short(at)).is_err() {
                return Err(AllocError);
            }
        }
    }
    Ok(found)
}
