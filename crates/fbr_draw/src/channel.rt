//! Channels, as nodes of their own outside all devices.

use crate::edge::end_of_edge;
use crate::picture::Sheet;
use crate::walk::{comes_to_channel, goes_to_channel, leaves_channel};
use fb_flat::Leaf;
use fb_types_services::Channel;
use fbr_leaves::{admitted, channel_of, received_from, sent_on};
use fbr_places::Writing;
use indexmap::IndexSet;
use std::alloc::{AllocError, Global};

// The channels of leaves, each once.
fn channels(alloc: Global, leaves: &[&Leaf]) -> Result<IndexSet<u16>, AllocError> {
    let mut numbers = IndexSet::new(alloc);
    for leaf in leaves {
        if let Some(channel) = channel_of(leaf) {
            numbers.insert(channel.number)?;
        }
    }
    Ok(numbers)
}

// Writes below the number of a channel what a datagram of it causes on all devices, where a certificate says it.
fn write_steps(sheet: &Sheet<'_>, channel: u16, writing: &mut Writing) {
    let Some(certificate) = sheet.picture.certificate else {
        return;
    };
    if let Some(steps) = certificate.channel(channel) {
        writing.put("\\nfar ");
        writing.show(&steps);
    }
}

// Draws a channel.
fn draw_channel(sheet: &Sheet<'_>, channel: u16, writing: &mut Writing) {
    writing.put("    channel_");
    writing.show(&channel);
    writing.put(" [label=\"channel ");
    writing.show(&channel);
    write_steps(sheet, channel, writing);
    writing.put("\", shape=ellipse");
    if comes_to_channel(sheet.picture.walk, channel) {
        writing.put(", color=red");
    }
    writing.put("];\n");
}

// Draws what joins a leaf, which has a number, to the channel that it sends on.
fn draw_sent(number: usize, channel: u16, end: &str, writing: &mut Writing) {
    writing.put("    n");
    writing.show(&number);
    writing.put(":head:e -> channel_");
    writing.show(&channel);
    writing.put(end);
    writing.put("\n");
}

// How often each datagram of a channel may be admitted, where a certificate says it.
fn times_of(sheet: &Sheet<'_>, channel: &Channel) -> Option<u8> {
    Some(admitted(sheet.picture.certificate?.repeats()?, channel))
}

// Ends an edge from a channel to where it is received, in red if a walk goes along it, with how often each datagram may be admitted at its head: for a label in the
// middle graphviz makes a place of its own, and then does not find places for all devices of some systems.
fn end_received(times: Option<u8>, is_walked: bool, writing: &mut Writing) {
    let Some(times) = times else {
        writing.put(end_of_edge(is_walked));
        writing.put("\n");
        return;
    };
    writing.put(" [headlabel=\"×");
    writing.show(&times);
    writing.put("\", fontname=\"Helvetica\", fontsize=8");
    writing.put(if is_walked { ", color=red];\n" } else { "];\n" });
}

// Draws what joins a channel to a leaf, which has a number, that receives from it.
fn draw_received(
    sheet: &Sheet<'_>,
    leaf: &Leaf,
    number: usize,
    channel: &Channel,
    writing: &mut Writing,
) {
    let from = channel.number;
    writing.put("    channel_");
    writing.show(&from);
    writing.put(" -> n");
    writing.show(&number);
    writing.put(":head:w");
    let is_walked = leaves_channel(sheet.picture.walk, from, leaf.path.as_str());
    end_received(times_of(sheet, channel), is_walked, writing);
}

// Draws what joins a leaf, which has a number, to its channel.
fn draw_end(sheet: &Sheet<'_>, leaf: &Leaf, number: usize, writing: &mut Writing) {
    if let Some(channel) = sent_on(leaf) {
        let is_walked = goes_to_channel(sheet.picture.walk, leaf.path.as_str(), channel.number);
        draw_sent(number, channel.number, end_of_edge(is_walked), writing);
        return;
    }
    if let Some(channel) = received_from(leaf) {
        draw_received(sheet, leaf, number, channel, writing);
    }
}

/// Draws the channels of leaves, which are numbered from 0 on.
pub fn draw_channels(
    sheet: &Sheet<'_>,
    leaves: &[&Leaf],
    writing: &mut Writing,
) -> Result<(), AllocError> {
    let numbers = channels(sheet.alloc, leaves)?;
    if numbers.is_empty() {
        return Ok(());
    }
    writing.put("  subgraph channels {\n    edge [style=dotted, penwidth=1.4];\n");
    for channel in &numbers {
        draw_channel(sheet, *channel, writing);
    }
    for (number, leaf) in leaves.iter().enumerate() {
        draw_end(sheet, *leaf, number, writing);
    }
    writing.put("  }\n");
    Ok(())
}
