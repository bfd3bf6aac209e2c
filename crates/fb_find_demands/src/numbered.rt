//! Numbers of nodes.

ghost use Rattle.std.specs.Prelude.{◌≡◌, ◌==◌, ◌<◌, ◌+◌, ◌^◌, length, slice_index, IfOk};
ghost use Rattle.fb_model.specs.Names.{at_place};
ghost use Rattle.fb_model.specs.CertificateText.{names_in};
ghost use Rattle.fb_model.specs.Demands.{channel, event, state};
ghost use Rattle.fb_types_blocks.specs.Views.{names_of};
ghost use Rattle.fb_find_laws.specs.Nodes.{index_in, rank_in};
ghost use Rattle.fb_find_demands.specs.Rights.{numbers_of};

use fb_flat::joined;
use indexmap::IndexSet;
use std::alloc::{AllocError, Global};

/// The numbers of a system's nodes: its states, in the order of their rows, behind them its event inputs and arrivals, in the order of theirs, and behind these
/// its channels, upwards, where datagrams are followed. A node goes by the path that its row has, in upper case, its names joined by dots, and a channel by its
/// number; `ends` has of each channel the path of the first PUBLISH or SUBSCRIBE of it.
#[derive(Drop)]
pub struct Numbering {
    pub states: IndexSet<String>,
    pub events: IndexSet<String>,
    pub channels: Vec<u16>,
    pub ends: Vec<String>,
}

// Where a text stands in a set; behind its end where it does not.
fn index(texts: &IndexSet<String>, text: &str) -> usize
    ensures place { result ≡ index_in (names_of texts.now) text.now }
    ensures small { result < 2 ^ 63 }
{
    let count = texts.len();
    match texts.get_index_of(text) {
        Some(index) => index,
        None => count,
    }
}

// Whether the number stands at this index of numbers.
fn is_at(numbers: &[u16], index: usize, number: u16) -> bool
    requires { index < length numbers.now }
    ensures { result ≡ (number == slice_index numbers.now index) }
{
    number == numbers[index]
}

// Where a number stands among numbers; behind their end where it does not.
fn rank(numbers: &[u16], number: u16) -> usize
    ensures { result ≡ rank_in numbers.now number }
{
    for index in 0..numbers.len() {
        if is_at(numbers, index, number) {
            return index;
        }
    }
    numbers.len()
}

// A sum, where there is memory for so many.
fn sum(a: usize, b: usize) -> Result<usize, AllocError>
    ensures { IfOk result (λ n. n ≡ a + b) }
{
    if b > usize::MAX - a {
        return Err(AllocError);
    }
    Ok(a + b)
}

// How many texts and numbers there are.
fn count_of(
    states: &IndexSet<String>,
    events: &IndexSet<String>,
    channels: &[u16],
) -> Result<usize, AllocError>
    ensures { IfOk result (λ n. n ≡ length (names_of states.now) + (length (names_of events.now) + length channels.now)) }
{
    sum(states.len() + events.len(), channels.len())
}

// The number of a channel.
fn channel_number(
    states: &IndexSet<String>,
    events: &IndexSet<String>,
    channels: &[u16],
    channel: u16,
) -> Result<usize, AllocError>
    ensures { IfOk result (λ n. n ≡ length (names_of states.now) + (length (names_of events.now) + rank_in channels.now channel)) }
{
    sum(states.len() + events.len(), rank(channels, channel))
}

impl Numbering {
    /// How many nodes have numbers.
    pub fn count(&self) -> Result<usize, AllocError>
        ensures { IfOk result (λ n. n ≡ length (names_of self.now.states) + (length (names_of self.now.events) + length self.now.channels.items)) }
    {
        count_of(&self.states, &self.events, self.channels.as_slice())
    }

    /// The number of a channel.
    pub fn channel(&self, number: u16) -> Result<usize, AllocError>
        ensures { IfOk result (λ n. n ≡ numbers_of self.now (channel number)) }
    {
        channel_number(&self.states, &self.events, self.channels.as_slice(), number)
    }

    /// The number of a state of a leaf.
    pub fn state(&self, alloc: Global, path: &str, name: &str) -> Result<usize, AllocError>
        ensures { IfOk result (λ n. n ≡ numbers_of self.now (state (at_place (names_in path.now) name.now))) }
    {
        let text = joined(alloc, path, name)?;
        Ok(index(&self.states, text.as_str()))
    }

    /// The number of an event input or arrival of a leaf.
    pub fn event(&self, alloc: Global, path: &str, name: &str) -> Result<usize, AllocError>
        ensures { IfOk result (λ n. n ≡ numbers_of self.now (event (at_place (names_in path.now) name.now))) }
    {
        let text = joined(alloc, path, name)?;
        Ok(self.states.len() + index(&self.events, text.as_str()))
    }
}
