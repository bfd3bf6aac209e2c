//! The channels of a system.

ghost use Rattle.std.specs.Prelude.{◌≡◌, ◌==◌, ◌<◌, ◌+◌, ◌-◌, ◌∷◌, ◌++◌, nat_lt, map, drop, slice_index, string_bytes, length, IfOk, OnOk};
ghost use Rattle.fb_model.specs.Certificates.{with_number, with_repeats};
ghost use Rattle.fb_find_demands.specs.Ends.{channels_in, end_in, names_channel, with_channel};

use fb_check_rows::channel_of;
use fb_flat::Leaf;
use std::alloc::{AllocError, Global};

// Whether a channel is this one.
fn is_of(channel: Option<u16>, number: u16) -> bool
    ensures { result ≡ names_channel number channel }
{
    match channel {
        Some(own) => own == number,
        None => false,
    }
}

// ---- the channels

// Whether the number at this index is this one.
fn is_at(numbers: &[u16], index: usize, number: u16) -> bool
    requires { index < length numbers.now }
    ensures { result ≡ (number == slice_index numbers.now index) }
{
    number == numbers[index]
}

// Whether the number is below that at this index.
fn is_below(numbers: &[u16], index: usize, number: u16) -> bool
    requires { index < length numbers.now }
    ensures { result ≡ nat_lt number (slice_index numbers.now index) }
{
    number < numbers[index]
}

// The numbers from this index on.
fn rest(numbers: &[u16], index: usize) -> &[u16]
    requires { index < length numbers.now }
    ensures { result.now ≡ drop index numbers.now }
{
    &numbers[index..]
}

// Numbers with more behind them.
fn with_all(mut all: Vec<u16>, more: &[u16]) -> Result<Vec<u16>, AllocError>
    ensures { IfOk result (λ v. v.items ≡ all.items ++ more.now) }
{
    for number in more {
        all.push(*number)?;
    }
    Ok(all)
}

// Numbers with one and more behind them.
fn with_one(mut all: Vec<u16>, number: u16, more: &[u16]) -> Result<Vec<u16>, AllocError>
    ensures { IfOk result (λ v. v.items ≡ all.items ++ number ∷ more.now) }
{
    all.push(number)?;
    with_all(all, more)
}

// A number at its place among numbers that go upwards, where it is new.
fn add_number(alloc: Global, number: u16, numbers: &[u16]) -> Result<Vec<u16>, AllocError>
    ensures { IfOk result (λ v. v.items ≡ with_number number numbers.now) }
{
    let mut all = Vec::new(alloc);
    for index in 0..numbers.len() {
        let behind = rest(numbers, index);
        if is_at(numbers, index, number) {
            return with_all(all, behind);
        }
        if is_below(numbers, index, number) {
            return with_one(all, number, behind);
        }
        all.push(numbers[index])?;
    }
    all.push(number)?;
    Ok(all)
}

// The channels with that of a leaf, if it has one.
fn add_channel(
    alloc: Global,
    channel: Option<u16>,
    numbers: &mut Vec<u16>,
) -> Result<(), AllocError>
    ensures { OnOk result (numbers.new.items ≡ with_channel channel numbers.old.items) }
{
    if let Some(number) = channel {
        *numbers = add_number(alloc, number, numbers.as_slice())?;
    }
    Ok(())
}

// The leaf so far from the end.
fn from_end<'a>(leaves: &[&'a Leaf], back: usize) -> &'a Leaf
    requires { back < length leaves.now }
    ensures { drop (length leaves.now - (back + 1)) (map (λ l. l.now) leaves.now) ≡ result.now ∷ drop (length leaves.now - back) (map (λ l. l.now) leaves.now) }
{
    leaves[leaves.len() - 1 - back]
}

// The channels of leaves, upwards, each once.
fn all_channels(alloc: Global, leaves: &[&Leaf]) -> Result<Vec<u16>, AllocError>
    ensures { IfOk result (λ v. v.items ≡ channels_in (map (λ l. l.now) leaves.now)) }
{
    let mut numbers = Vec::new(alloc);
    for back in 0..leaves.len() {
        add_channel(alloc, channel_of(from_end(leaves, back)), &mut numbers)?;
    }
    Ok(numbers)
}

/// The channels that leaves name, upwards, each once, where datagrams are followed, and else none.
pub(crate) fn channels(
    alloc: Global,
    repeats: Option<u8>,
    leaves: &[&Leaf],
) -> Result<Vec<u16>, AllocError>
    ensures { IfOk result (λ v. v.items ≡ with_repeats repeats (channels_in (map (λ l. l.now) leaves.now))) }
{
    match repeats {
        Some(_) => all_channels(alloc, leaves),
        None => Ok(Vec::new(alloc)),
    }
}

// ---- their ends

// The path of the first leaf that names the channel.
fn end<'a>(leaves: &[&'a Leaf], number: u16) -> &'a str
    ensures { result.now ≡ end_in (map (λ l. l.now) leaves.now) number }
{
    for leaf in leaves {
        if is_of(channel_of(*leaf), number) {
            return leaf.path.as_str();
        }
    }
    ""
}

/// Of each channel the path of the first leaf that names it.
pub(crate) fn ends(
    alloc: Global,
    leaves: &[&Leaf],
    channels: &[u16],
) -> Result<Vec<String>, AllocError>
    ensures { IfOk result (λ v. map string_bytes v.items ≡ map (end_in (map (λ l. l.now) leaves.now)) channels.now) }
{
    let mut ends = Vec::new(alloc);
    for channel in channels {
        ends.push(String::from_str(alloc, end(leaves, *channel))?)?;
    }
    Ok(ends)
}
