//! The bounds of what fits, told to people.

use crate::beside::{tell_beside, tell_depth};
use crate::channels::{Ways, channels_behind, tell_channels};
use crate::notes::tell_notes;
use crate::turns::{Counted, tell_turns};
use fb_cert::Certificate;
use fb_flat::{Body, FlatResource, Leaf, joined};
use fb_turns::{Turns, count_turns};
use fb_types_blocks::{Block, Variables};
use fb_verified::Verified;
use fbr_diagnosis::notes_of;
use fbr_leaves::{leaves_in, numbered};
use fbr_needs::{Queue, queue_in};
use fbr_places::{Named, Writing};
use std::alloc::{AllocError, Global};

// A resource whose bounds are told.
#[derive(Clone, Copy)]
struct View<'a> {
    alloc: Global,
    verified: &'a Verified,
    ways: Ways<'a>,
    queue: &'a Queue<'a>,
    counted: Counted<'a>,
}

// Writes the channels on which an arrival of a leaf can be sent on.
fn tell_ways(
    view: View<'_>,
    leaf: &Leaf,
    event: &str,
    writing: &mut Writing,
) -> Result<(), AllocError> {
    let channels = channels_behind(view.alloc, view.ways, leaf, event)?;
    for (number, channel) in channels.iter().enumerate() {
        writing.put(if number == 0 { ", by channel " } else { ", " });
        writing.show(channel);
    }
    Ok(())
}

// Writes what one event at an arrival of a leaf causes at most: on its device, and where it is known on all, and through which channels; how many of it the
// queue takes at once; beside which other arrivals there is no room for it; and how many dispatches it needs.
fn tell_arrival(
    view: View<'_>,
    leaf: &Leaf,
    event: &str,
    writing: &mut Writing,
) -> Result<(), AllocError> {
    let path = joined(view.alloc, leaf.path.as_str(), event)?;
    let path = path.as_str();
    let Some(steps) = view.verified.steps_of(path) else {
        return Ok(());
    };
    let places = view.verified.places_of(path).unwrap_or(0);
    writing.put("    ");
    writing.put(path);
    writing.put(": steps at most ");
    writing.show(&steps);
    writing.put(", places at most ");
    writing.show(&places);
    if let Some(far) = view.verified.far_of(path) {
        writing.put(", steps on all devices at most ");
        writing.show(&far);
        tell_ways(view, leaf, event, writing)?;
    }
    tell_beside(view.queue, path, writing);
    writing.put("\n");
    tell_turns(
        view.alloc,
        view.verified,
        view.counted,
        leaf,
        event,
        writing,
    )
}

// Writes the range of each variable of a leaf that is not its whole type.
fn tell_ranges(
    alloc: Global,
    certificate: &Certificate,
    leaf: &str,
    variables: &Variables,
    writing: &mut Writing,
) -> Result<(), AllocError> {
    for (name, variable) in variables {
        let path = joined(alloc, leaf, name.as_str())?;
        if let Some(range) = certificate.range(path.as_str()) {
            let low = range.low;
            let high = range.high;
            let of_type = variable.of_type;
            if low != of_type.lowest() || high != of_type.highest() {
                writing.put("    ");
                writing.put(path.as_str());
                writing.put(": ");
                writing.show(&low);
                writing.put(" to ");
                writing.show(&high);
                writing.put("\n");
            }
        }
    }
    Ok(())
}

// Writes the ranges of a basic block.
fn tell_block(
    alloc: Global,
    certificate: &Certificate,
    leaf: &str,
    block: &Block,
    writing: &mut Writing,
) -> Result<(), AllocError> {
    tell_ranges(alloc, certificate, leaf, &block.face.inputs, writing)?;
    tell_ranges(alloc, certificate, leaf, &block.face.outputs, writing)?;
    tell_ranges(alloc, certificate, leaf, &block.internals, writing)
}

// Writes the bounds of a leaf.
fn tell_leaf(view: View<'_>, leaf: &Leaf, writing: &mut Writing) -> Result<(), AllocError> {
    match &leaf.body {
        Body::Basic(block) => {
            let certificate = view.verified.certificate();
            tell_block(view.alloc, certificate, leaf.path.as_str(), block, writing)
        }
        Body::Served(service) => match service.arrival() {
            Some(event) => tell_arrival(view, leaf, event, writing),
            None => Ok(()),
        },
    }
}

// Writes the bounds of a resource.
fn tell_resource(
    alloc: Global,
    verified: &Verified,
    resource: &FlatResource,
    turns: &Turns,
    writing: &mut Writing,
) -> Result<(), AllocError> {
    let queue = queue_in(alloc, verified.certificate(), resource)?;
    tell_depth(&queue, writing);
    let leaves = leaves_in(alloc, resource)?;
    let numbers = numbered(alloc, &leaves)?;
    let view = View {
        alloc,
        verified,
        ways: Ways {
            numbers: &numbers,
            leaves: &leaves,
        },
        queue: &queue,
        counted: Counted {
            resource,
            depth: queue.depth,
            turns,
        },
    };
    for leaf in &resource.leaves {
        tell_leaf(view, leaf, writing)?;
    }
    Ok(())
}

/// Writes the bounds of what fits: how deep each queue is, what each arrival causes at most, how many of it fit at once, beside which others it has no
/// room, and how many dispatches it needs; the range of each variable that is not its whole type, and the channels; and notes on the text, but for those
/// whose names are allowed. Says whether there are notes.
pub fn tell_bounds(
    alloc: Global,
    verified: &Verified,
    app: Named<'_>,
    allowed: &str,
    writing: &mut Writing,
) -> Result<bool, AllocError> {
    let turns = count_turns(alloc, verified)?;
    for device in &verified.flat().devices {
        for resource in &device.resources {
            tell_resource(alloc, verified, resource, &turns, writing)?;
        }
    }
    tell_channels(alloc, verified, writing)?;
    let notes = notes_of(alloc, verified, app, allowed)?;
    tell_notes(alloc, app, &notes, writing)?;
    Ok(!notes.places.is_empty())
}
