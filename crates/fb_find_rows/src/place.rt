//! Places of a system that have numbers in each column of a certificate.

ghost use Rattle.std.specs.Prelude.{◌≡◌, ◌<◌, ◌+◌, ◌++◌, length, map, IfOk};
ghost use Rattle.std.specs.List.{All};
ghost use Rattle.fb_model.specs.Demands.{channel, event, Node, node_in};
ghost use Rattle.fb_model.specs.CertificateText.{place_of};
ghost use Rattle.fb_find_laws.specs.Nodes.{nodes_of};
ghost use Rattle.fb_find_rows.specs.Places.{texts_of};
ghost use Rattle.fb_model.specs.Finding.{node_of};

use fb_faults::Place;
use indexmap::IndexSet;
use std::alloc::{AllocError, Global};

// The channel of a number.
fn channel_at(channels: &[u16], number: usize) -> Place
    ensures { number < length channels.now → (x : Node) → node_in (map channel channels.now) number ≡ x → node_of result ≡ x }
{
    match channels.get(number) {
        Some(channel) => Place::Channel(*channel),
        None => Place::Channel(0),
    }
}

// The event input or arrival of a number, or behind these the channel.
fn event_at(
    alloc: Global,
    events: &IndexSet<String>,
    channels: &[u16],
    number: usize,
) -> Result<Place, AllocError>
    ensures { number < length (texts_of events.now) + length channels.now → (x : Node) → node_in (map (λ t. event (place_of t)) (texts_of events.now) ++ map channel channels.now) number ≡ x → IfOk result (λ p. node_of p ≡ x) }
{
    match events.get_index(number) {
        Some(text) => Ok(Place::Event(text.clone()?)),
        None => Ok(channel_at(channels, number - events.len())),
    }
}

/// The place of a number, where states and behind them events have these rows, and behind these there are channels.
pub fn place_at(
    alloc: Global,
    states: &IndexSet<String>,
    events: &IndexSet<String>,
    channels: &[u16],
    number: usize,
) -> Result<Place, AllocError>
    ensures { number < length (texts_of states.now) + (length (texts_of events.now) + length channels.now) → IfOk result (λ p. node_of p ≡ node_in (nodes_of (texts_of states.now) (texts_of events.now) channels.now) number) }
{
    match states.get_index(number) {
        Some(text) => Ok(Place::State(text.clone()?)),
        None => event_at(alloc, events, channels, number - states.len()),
    }
}

/// The places of numbers.
pub fn places(
    alloc: Global,
    states: &IndexSet<String>,
    events: &IndexSet<String>,
    channels: &[u16],
    numbers: &[usize],
) -> Result<Vec<Place>, AllocError>
    ensures { All (λ n. n < length (texts_of states.now) + (length (texts_of events.now) + length channels.now)) numbers.now → IfOk result (λ v. map node_of v.items ≡ map (node_in (nodes_of (texts_of states.now) (texts_of events.now) channels.now)) numbers.now) }
{
    let mut places = Vec::new(alloc);
    for number in numbers {
        places.push(place_at(alloc, states, events, channels, *number)?)?;
    }
    Ok(places)
}
